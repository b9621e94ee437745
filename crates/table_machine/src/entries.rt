use crate::roomy::Roomy;
use rm_base::{Bytes, Name, Names, NodeId, SessionId, SessionList};
use sql_database::SqlReply;

/// What happens to the sessions, one at a time.
#[derive(Debug, Drop)]
pub enum Entry {
    /// A session is declared on a node.
    Join {
        session: SessionId,
        name: Name,
        node: NodeId,
    },
    /// A session hands in a statement.
    Submit {
        session: SessionId,
        text: Bytes,
    },
    /// A transaction takes its snapshot.
    Snap {
        session: SessionId,
    },
    /// A statement is evaluated.
    Exec {
        session: SessionId,
    },
    /// A transaction's changes go into the queue of commits.
    Enqueue {
        session: SessionId,
    },
    /// The first of the queue is committed.
    Settle,
    /// A takeover commits the first of the queue and drops the others.
    Forget {
        kept: u32,
    },
    /// A statement is answered.
    Reply {
        session: SessionId,
        reply: SqlReply,
    },
    /// A statement is given up.
    Timer {
        session: SessionId,
    },
    /// A node stops, with the sessions that had something open there, ascending.
    Down {
        node: NodeId,
        sessions: SessionList,
    },
    /// A node starts again.
    Up {
        node: NodeId,
    },
    /// A node takes the writes.
    Opened {
        node: NodeId,
    },
    /// An order's condition was false.
    Ignored {
        line: u32,
    },
    /// What an order waited for did not come.
    Missed {
        line: u32,
    },
    /// The script is over, with the sessions whose statement is unanswered, ascending.
    End {
        sessions: SessionList,
    },
}

/// The entries in the order in which they happened.
pub type Journal = Roomy<Entry>;

/// The name of each session, by its number.
pub type SessionNames = Names;
