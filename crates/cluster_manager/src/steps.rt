use rm_base::NodeId;

/// A step of the takeover of a node.
#[derive(Clone, Copy, Debug, PartialEq, Eq)]
pub enum Step {
    /// The log store and the home take the next epoch, and all nodes stop.
    Fence,
    /// The node learns where the log ends.
    Tail,
    /// Storage gets the whole log.
    Ship,
    /// The home's tables are swept.
    Sweep,
    /// A node that is up goes on, with nothing kept.
    Rejoin(NodeId),
    /// The node undoes what was not committed.
    Work,
    /// The node has the writes.
    Opened,
}

/// How far a takeover is.
#[derive(Clone, Copy, Debug, PartialEq, Eq)]
pub enum Stage {
    Fenced,
    Tailed,
    Shipped,
    /// The tables were swept, and the nodes below that number that are up went on.
    Rejoining(u8),
    Worked,
}

/// A takeover that is under way.
#[derive(Clone, Copy, Debug, PartialEq, Eq)]
pub struct Takeover {
    pub node: NodeId,
    pub stage: Stage,
}
