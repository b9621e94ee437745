//! What a statement changes.
ghost use Rattle.std.specs.Prelude.{◌≡◌};
ghost use Rattle.rw_worker.specs.WriteStages as spec;

use rm_base::{SessionId, TrxId};
use row_edits::RowChange;
use sql_database::SqlReply;
use std::collections::VecDeque;

/// The changes of a session's statement: the number of its transaction, if it has one; whether the transaction
/// goes on behind the statement; and of how many rows Ok speaks.
#[derive(Drop)]
pub struct Write {
    pub session: SessionId,
    pub number: Option<TrxId>,
    pub lasting: bool,
    pub rows: u64,
    pub changes: VecDeque<RowChange>,
}

/// What is still to be changed.
#[derive(Drop)]
pub struct Todo {
    pub session: SessionId,
    pub lasting: bool,
    pub rows: u64,
    pub changes: VecDeque<RowChange>,
}

/// How the changes ended.
#[derive(Clone, Copy, Debug, PartialEq, Eq)]
pub enum WriteEnd {
    /// All were made.
    Made(u64),
    /// There was no space for one.
    SpaceFull,
    /// No number is left for the transaction.
    TrxFull,
}

impl WriteEnd {
    pub(crate) fn reply(&self) -> SqlReply
        ensures { result ≡ spec.reply_of self.now }
    {
        match self {
            WriteEnd::Made(rows) => SqlReply::Ok(*rows),
            WriteEnd::SpaceFull => SqlReply::SpaceFull,
            WriteEnd::TrxFull => SqlReply::TrxFull,
        }
    }
}
