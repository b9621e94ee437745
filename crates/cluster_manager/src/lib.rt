//! What is done to the home and the slabs when a part of the cluster is lost, and the order of the steps
//! by which another node takes the writes.
#![tactic(auto)]

mod laws;
mod manager;
mod steps;
mod striking;
mod sweeping;
#[cfg(test)]
mod tests;

pub use laws::{seating_laws, takeover_laws};
pub use manager::Manager;
pub use steps::{Stage, Step, Takeover};
pub use striking::{drop_slab, kick, renew_home};
pub use sweeping::sweep;
