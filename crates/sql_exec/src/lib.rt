//! The evaluation of SQL statements over rows that are handed in.
#![tactic(auto)]

mod changes;
mod evaluating;
mod keeping;
mod keys;
mod laws;
mod ordering;
mod outcomes;
mod rows;
mod selecting;
mod totals;
mod writing;

pub use evaluating::eval;
pub use laws::{answer_laws, total_laws, whole_laws};
pub use outcomes::{Outcome, Repeated};
pub use rows::{RangeRows, RowLists};
