//! Latches of pages: free, held in S by some nodes, or held in X by one.
#![tactic(auto)]

mod latch;
mod laws;
mod node_set;
#[cfg(test)]
mod tests;

pub use latch::{Holders, Latch, Mode, PageLatch};
pub use laws::holder_laws;
pub use node_set::NodeSet;
