//! The planner: which ranges of keys the rows of a statement can have.
#![tactic(auto)]

mod ends;
mod laws;
mod narrowing;
mod places;
mod planning;

pub use laws::plan_laws;
pub use planning::{Planner, ranges};
