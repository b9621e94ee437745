//! The sessions of a cluster: where each stands, and the commits that wait.
#![tactic(auto)]

mod classes;
mod laws;
mod places;
mod queue;
mod rows;
mod table;
#[cfg(test)]
mod tests;

pub use classes::{StatementClass, class_of};
pub use laws::{reading_laws, telling_laws};
pub use places::{Asked, Place, SessionRow, SessionRows, SessionTable};
pub use queue::{Queue, Queued};
