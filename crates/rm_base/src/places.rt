use crate::identifiers::{Epoch, Incarnation, NodeId, SlabId};

/// Where the pool keeps a page: a slot of a slab, while the slab has that incarnation.
#[derive(Clone, Copy, Debug, PartialEq, Eq, Default)]
pub struct Addr {
    pub slab: SlabId,
    pub incarnation: Incarnation,
    pub slot: u16,
}

/// Where an undo item stands: a page and its place there, from 0. Page 0 says that there is none.
#[derive(Clone, Copy, Debug, PartialEq, Eq, Default)]
pub struct UndoPtr {
    pub page: u32,
    pub slot: u16,
}

/// Who sends a call: a node, in one of its incarnations, in an epoch.
#[derive(Clone, Copy, Debug, PartialEq, Eq, Default)]
pub struct Token {
    pub node: NodeId,
    pub incarnation: Incarnation,
    pub epoch: Epoch,
}
