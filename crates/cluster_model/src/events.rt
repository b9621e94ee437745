use rm_base::{Bytes, MsgNo, Name, NodeId, PageId, SessionId, SlabId};

/// What can happen to a cluster, one thing at a time.
#[derive(Debug, Drop)]
pub enum Event {
    /// A session is declared on a node.
    Session {
        session: SessionId,
        name: Name,
        node: NodeId,
    },
    /// A session hands in a statement.
    Submit {
        session: SessionId,
        text: Bytes,
    },
    /// A node does its next act.
    Turn(NodeId),
    /// The access of a node's next act is not made.
    TurnLost(NodeId),
    /// The access of a node's next act is made, and the node does not learn of it.
    TurnUnseen(NodeId),
    /// A message that was sent arrives, for the first time or again.
    Deliver(MsgNo),
    /// The last message that was sent arrives.
    DeliverLast,
    /// Each message that was sent so far arrives once, in the order of their numbers.
    DeliverAll,
    /// The home tells one node that its copy of a page is old.
    Home,
    /// A page chunk gets the next group of the log.
    Ship(u8),
    /// Storage merges a page's records into its image.
    Fold(PageId),
    /// A node drops its copy of a page.
    Evict(NodeId, PageId),
    /// A session's statement is given up.
    Timeout(SessionId),
    /// A node loses its memory and is down.
    CrashNode(NodeId),
    /// A slab loses its memory and is down.
    CrashSlab(SlabId),
    /// The home loses its memory and is down.
    CrashHome,
    /// A node that is down is struck from the home.
    Kick(NodeId),
    /// A node that was struck comes back, empty and without the writes.
    Restart(NodeId),
    /// A slab that is down is struck from the home.
    DropSlab(SlabId),
    /// A slab that was struck comes back empty.
    RestartSlab(SlabId),
    /// A node does the next step to take the writes.
    Takeover(NodeId),
    /// The home comes back empty, and everything but storage begins anew.
    Renew,
}

/// The kinds of act that a node does in its turns.
#[derive(Clone, Copy, Debug, PartialEq, Eq)]
pub enum ActKind {
    /// It reads the stamp that the writing node published.
    Stamp,
    /// It asks the home to note that it refers to a page.
    Register,
    /// It asks the home to forget that it refers to a page.
    Unregister,
    /// It asks the home to make the other nodes' copies old.
    Invalidate,
    /// It tries a page's latch at the home.
    Latch,
    /// It gives a latch back.
    Release,
    /// It reads a page's entry at the home.
    Look,
    /// It notes at the home that the pool's copy is the latest.
    Clean,
    /// It reads a page from a slab.
    Read,
    /// It writes a page into a slab.
    Write,
    /// It asks storage for a page.
    Get,
    /// It asks storage to keep groups of the log.
    Append,
    /// It makes a change that splits no page.
    Install,
    /// It splits a page.
    Split,
    /// It answers a statement.
    Reply,
}
