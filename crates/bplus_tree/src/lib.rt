//! Trees of keys over pages: the way down to a key, and a walk along the leaves of a range. Pages are handed
//! in by the caller, whoever keeps them.
#![tactic(auto)]

mod descent;
mod laws;
mod leaf_walk;
mod reading;
mod steps;
#[cfg(test)]
mod tests;
mod want;

pub use descent::Descent;
pub use laws::search_laws;
pub use leaf_walk::LeafWalk;
pub use reading::can_be_read;
pub use want::{MOST_STEPS, Want};
