//! The core of a cluster: its pool, its workers and its sessions, one event at a time.
#![tactic(auto)]

mod acting;
mod beginning;
mod desks;
mod ending;
mod fetching;
mod hearing;
mod laws;
mod ledger;
mod recording;
mod running;
mod stages;
mod taking;
#[cfg(test)]
mod tests;
mod waiting;
mod working;

pub use desks::{Task, may_work, task_turn};
pub use laws::ledger_laws;
pub use ledger::Ledger;
pub use recording::Purpose;
pub use stages::{Report, Stage, Turned};
pub use taking::{take_job, take_statement, take_undoing};
