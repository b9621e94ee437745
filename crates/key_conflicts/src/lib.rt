//! Which keys another transaction has changed past a writer's snapshot, over pages that are handed in
//! one by one.
#![tactic(auto)]

mod asking;
mod laws;
mod stages;
#[cfg(test)]
mod tests;
mod verdict;

pub use asking::AskingTest;
pub use laws::{judged_law, order_law};
pub use verdict::{Met, Tested};
