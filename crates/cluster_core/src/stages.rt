//! What a node's worker wants, and what a turn comes to.
use cluster_model::Origin;
use range_reader::Fetch;
use rm_base::{Lsn, PageId, Stamp, TrxId};
use sql_database::SqlReply;
use statement_work::FixedPage;

/// What a node's worker wants, and has not been told of.
#[derive(Drop)]
pub enum Stage {
    Fetching(Fetch),
    FetchingFixed(FixedPage),
    /// A page that has to be what the work takes it for.
    FetchingSure(Fetch),
    Releasing(PageId),
    /// A plan, which the pool has, with its group installed or not.
    Running(bool),
    Stamping,
    Appending,
    /// That the pool, with so many slots, is full. What was under way is given up and not over yet.
    Quitting(u32),
    Replying(SqlReply),
    Resting,
}

/// What a turn of a node comes to for its sessions.
#[derive(Debug, Drop)]
pub enum Report {
    /// Nothing that concerns them.
    Went,
    /// A page was handed to the worker.
    Used {
        page: PageId,
        lsn: Lsn,
        origin: Origin,
    },
    /// The stamp of a snapshot was taken.
    Snapped(Stamp),
    /// The transaction has its number.
    Numbered(TrxId),
    /// The group of the transaction's commit is in the log, which ends at the offset now.
    Queued(u64),
    /// Storage is known to keep the log up to the offset.
    Kept(u64),
    Replied(SqlReply),
    /// Nothing is left to undo.
    Rested,
}

/// What a turn leaves its worker to want, where its work is not over, and what it comes to.
#[derive(Drop)]
pub struct Turned {
    pub stage: Option<Stage>,
    pub report: Report,
}
