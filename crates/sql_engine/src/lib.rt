//! Statements of SQL over a store of tables: the trait of such stores, and a statement's run from the schemas that
//! it needs to the last of its changes.
#![tactic(auto)]

mod executing;
mod making;
mod naming;
mod reading;
mod store;

pub use executing::execute;
pub use store::{SpaceFull, TableStore};
