//! The worker of a node that only reads.
#![tactic(auto)]

mod kinds;
mod latching;
mod laws;
mod replies;
mod serving;
mod turns;
mod waiting;
mod worker;

pub use kinds::StatementKind;
pub use laws::{answer_laws, latch_law};
pub use worker::RoWorker;
