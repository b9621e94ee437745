//! What a worker is given, and what it does.
use page_image::Page;
use page_latches::Holders;
use range_reader::Fetch;
use redo_record::Plan;
use rm_base::{Lsn, PageId, SessionId, Stamp, TrxId};
use sql_database::SqlReply;
use sql_statements::Stmt;

/// A statement to be served: whose it is, the stamp of its snapshot if one was taken before, the number of
/// its transaction if it has one, and whether a BEGIN opened the transaction.
#[derive(Drop)]
pub struct Job {
    pub session: SessionId,
    pub statement: Stmt,
    pub snapshot: Option<Stamp>,
    pub trx: Option<TrxId>,
    pub lasting: bool,
}

/// Why an act was not made, or not to its end.
#[derive(Debug, Drop)]
pub enum Obstacle {
    /// A latch is held by others.
    Busy(Holders),
    /// Storage has not reached the LSN.
    NotYet(Lsn),
    /// So many nodes have not learnt of an invalidation.
    Started(u32),
    /// The part that was tried is down.
    DownPart,
    /// The try was lost.
    Lost,
    /// The pool, with so many slots, has none left.
    PoolFull(u32),
}

/// What a worker is told: to begin a statement, or to undo what a session's ended transaction changed; what
/// came of its last act; or why that act was not made.
#[derive(Drop)]
pub enum Given<'a> {
    Start(Job),
    Undo(SessionId),
    Page(&'a Page),
    Stamp(Stamp),
    Ran,
    Met(Obstacle),
}

/// A page at a fixed place.
#[derive(Clone, Copy, Debug, PartialEq, Eq)]
pub enum FixedPage {
    Meta,
    Slots,
}

/// What a worker wants done.
#[derive(Drop)]
pub enum Deed {
    Fetch(Fetch),
    FetchFixed(FixedPage),
    /// A page that has to be what the work takes it for.
    FetchSure(Fetch),
    Release(PageId),
    Run(Plan),
    Stamp,
    Append,
}

/// What a worker does next. It rests where nothing is to be undone.
#[derive(Drop)]
pub enum Act {
    Do(Deed),
    Reply(SqlReply),
    Rest,
}
