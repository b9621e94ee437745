//! What a reader finds over pages that it uses one after the other, while the log grows, is what
//! its snapshot has, with the changes of its own transaction.
#![tactic(auto)]

mod laws;

pub use laws::{example_laws, open_laws, past_laws, snapshot_laws};
