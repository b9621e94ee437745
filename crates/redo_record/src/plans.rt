use crate::redo::Records;
use page_image::Page;
use rm_base::{Items, PageList, TrxId};

/// What a plan of changes is for.
#[derive(Clone, Copy, Debug, PartialEq, Eq)]
pub enum PlanKind {
    /// Gives a transaction its number.
    Begin(TrxId),
    /// Changes one row.
    Change,
    /// Moves a part of a tree's page to a new page.
    Split,
    /// Takes back one change.
    Undo,
    /// Stamps a transaction and frees its slot.
    Commit,
    /// Frees the slot of a transaction that was undone.
    Free,
}

/// A plan of changes: the records of one group and the pages that they change, at most eight.
#[derive(Drop)]
pub struct Plan {
    pub kind: PlanKind,
    /// The pages in the order in which they are latched: tree pages from the root down, then undo,
    /// stamp, slots and meta page.
    pub pages: PageList,
    /// Those of the pages that the plan makes.
    pub made: PageList,
    pub records: Records,
}

/// The pages on the way from a tree's root to a leaf, the root first.
pub type Path = Items<Page>;

/// Why a tree cannot take a change.
#[derive(Clone, Copy, Debug, PartialEq, Eq)]
pub enum TreeNo {
    /// The item does not fit the leaf.
    NoRoom,
    /// The change makes a page past the last one that may be counted.
    SpaceFull,
}
