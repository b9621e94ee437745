//! The pool of pages as its callers see it: what a node can ask of it, what can happen to it, and what it
//! promises, whatever its parts are.
#![tactic(auto)]

mod answers;
mod events;
mod laws;
mod pool;
#[cfg(test)]
mod tests;

pub use answers::{Obstacle, Outcome, PoolAnswer};
pub use events::{How, PoolEvent, can_end};
pub use laws::{log_laws, settle_laws};
pub use pool::PagePool;
