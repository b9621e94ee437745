use crate::events::{ActKind, Event};
use crate::shape::Shape;
use rm_base::{Bytes, Items, NodeId};

/// What a line of a script asks for.
#[derive(Debug, Drop)]
pub enum Order {
    One(Event),
    /// So many rounds, or fewer where a round does nothing.
    Drain(u32),
    /// The same, up to where the node's next act is of the kind.
    Until {
        node: NodeId,
        kind: ActKind,
        rounds: u32,
    },
}

/// An order, and the number of its line in the script, from 1.
#[derive(Debug, Drop)]
pub struct Line {
    pub line: u32,
    pub order: Order,
}

/// Orders as they follow each other.
pub type Orders = Items<Line>;

/// A cluster's shape, the log on which it starts where that is not the shortest one, and what happens to it.
#[derive(Debug, Drop)]
pub struct Script {
    pub shape: Shape,
    pub boot: Option<Bytes>,
    pub orders: Orders,
}
