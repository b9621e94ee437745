//! What the begin or the end of a transaction asks for, and what it tells.
use redo_record::Plan;
use rm_base::{PageId, Stamp, TrxId};

/// A page that is wanted next.
#[derive(Clone, Copy, Debug, PartialEq, Eq)]
pub enum Fetch {
    Meta,
    Slots,
    /// A page of stamps.
    Stamps(PageId),
}

/// What is to be done next.
#[derive(Drop)]
pub enum Act {
    Fetch(Fetch),
    Run(Plan),
}

/// What became of it.
#[derive(Clone, Copy, Debug, PartialEq, Eq)]
pub enum Told {
    /// The transaction has this number.
    Begun(TrxId),
    /// Each number is given.
    TrxFull,
    /// The transaction has this stamp.
    Committed(Stamp),
    /// The slot is free.
    Freed,
}
