//! What a pool answers to an event.
ghost use Rattle.std.specs.Prelude.{◌≡◌};
ghost use Rattle.page_pool.specs.Events.{kept_by, meets};

use page_latches::Holders;
use rm_base::{Lsn, NodeId};

/// What got in the way of an act. The act, or the fetch or plan that it is of, is tried again.
#[derive(Debug, Drop)]
pub enum Obstacle {
    /// A latch is held by other nodes.
    Busy(Holders),
    /// Storage has not come to the LSN that was asked for.
    NotYet(Lsn),
    /// So many nodes have not learnt that their copies are old.
    Started(u32),
    /// The home, or the slab, is down or lost what it held.
    DownPart,
    /// Nothing is known of the access: it was lost, or it was made and not seen.
    Lost,
    /// The pool, with so many slots, has none left.
    PoolFull(u32),
    /// The page has another address by now, or none.
    Moved,
}

/// What came of an act of a node, or of the answer to its call.
#[derive(Debug, Drop)]
pub enum Outcome {
    Went,
    /// The group of the node's plan is in the log of the read-write node, which ends at the offset now.
    Installed(u64),
    /// The node knows that storage keeps the log up to the offset.
    Kept(u64),
    Met(Obstacle),
}

/// What a pool answers to an event.
#[derive(Debug, Drop)]
pub enum PoolAnswer {
    /// The node did its act.
    Did(Outcome),
    /// The node took the answer to its call.
    Accepted(NodeId, Outcome),
    /// It happened, and no node took part.
    Done,
    /// The event's condition does not hold. Nothing has changed.
    Refused,
}

impl PoolAnswer {
    /// The offset up to which a node has just learnt that storage keeps the log.
    pub fn kept(&self) -> Option<u64>
        ensures { result ≡ kept_by self.now }
    {
        match self {
            PoolAnswer::Did(Outcome::Kept(tail)) => Some(*tail),
            PoolAnswer::Accepted(_, Outcome::Kept(tail)) => Some(*tail),
            _ => None,
        }
    }

    /// Whether something got in the way.
    pub fn meets(&self) -> bool
        ensures { result ≡ meets self.now }
    {
        match self {
            PoolAnswer::Did(Outcome::Met(_)) | PoolAnswer::Accepted(_, Outcome::Met(_)) => true,
            _ => false,
        }
    }
}
