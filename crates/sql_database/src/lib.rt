//! A database of tables, the changes that statements make of it, and what a statement may answer.
#![tactic(auto)]

mod changes;
mod laws;
mod replies;

pub use changes::{Change, Changes, create_table};
pub use laws::database_laws;
pub use replies::SqlReply;
