//! Statements served by any worker, turn after turn.
#![tactic(auto)]

mod changing;
mod standing;

pub use changing::{Pool, serve};
pub use standing::{StillPages, serve_to_end};
