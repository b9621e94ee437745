ghost use Rattle.std.specs.Prelude.{◌≡◌, []};

use crate::classes::StatementClass;
use crate::queue::Queue;
use rm_base::{Bytes, Items, NodeId, SessionId, SessionList, Stamp, TrxId};
use std::alloc::Global;
use table_machine::Roomy;

/// Where a session stands: it has no transaction; it has one, with a snapshot and perhaps a number; or it
/// lost one with its node and has not been told.
#[derive(Clone, Copy, Debug, PartialEq, Eq)]
pub enum Place {
    Idle,
    Active { snap: Stamp, trx: Option<TrxId> },
    Lost,
}

/// A session's unanswered statement.
#[derive(Debug, Drop)]
pub struct Asked {
    pub text: Bytes,
    /// What sort of statement the text is.
    pub class: StatementClass,
    /// Which of the session's statements it is, from 1.
    pub number: u32,
    /// Its place in the order of submission.
    pub turn: u64,
    /// Whether the node's last turn since then met a down part or was lost.
    pub met: bool,
    /// The place in the trace at which its uses begin.
    pub uses: usize,
}

/// A session: its node, where it stands, whether a BEGIN opened its transaction, how many statements it
/// handed in, and the one that is unanswered.
#[derive(Debug, Drop)]
pub struct SessionRow {
    pub node: NodeId,
    pub place: Place,
    pub lasting: bool,
    pub count: u32,
    pub asked: Option<Asked>,
}

/// The sessions by their numbers.
pub type SessionRows = Items<SessionRow>;

/// The sessions, those whose ended transaction is still to be undone, and the commits that wait.
#[derive(Debug, Drop)]
pub struct SessionTable {
    pub sessions: SessionRows,
    pub undoing: SessionList,
    pub queue: Queue,
}

impl SessionTable {
    /// Keeps the allocator, and takes no memory yet.
    pub fn new(alloc: Global) -> SessionTable
        ensures sessions { result.sessions ≡ [] }
        ensures undoing { result.undoing ≡ [] }
        ensures queue { result.queue.items ≡ [] }
    {
        SessionTable {
            sessions: Items::new(alloc),
            undoing: SessionList::new(),
            queue: Roomy::new(alloc),
        }
    }
}
