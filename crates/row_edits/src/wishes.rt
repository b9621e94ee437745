//! What a change asks for, and what it tells.

use redo_record::Plan;
use rm_base::{PageId, UndoPtr};

/// A page that is wanted next, and how the one before it is held meanwhile.
#[derive(Clone, Copy, Debug, PartialEq, Eq)]
pub enum Fetch {
    /// The root of a tree. Nothing is held.
    Root(PageId),
    /// A child of the page that was given last, which is held until the child is.
    Child(PageId),
    /// An undo page. Nothing is held.
    Undo(PageId),
    /// The slots page. Nothing is held.
    Slots,
    /// The meta page. Nothing is held.
    Meta,
}

/// What is to be done next.
#[derive(Drop)]
pub enum Act {
    Fetch(Fetch),
    Run(Plan),
}

/// What became of a row's change.
#[derive(Clone, Copy, Debug, PartialEq, Eq)]
pub enum Edited {
    /// Its plan was run.
    Made,
    /// A page was needed, and none can be made.
    SpaceFull,
}

/// What became of the undo of a change.
#[derive(Clone, Copy, Debug, PartialEq, Eq)]
pub enum Taken {
    /// Its plan was run. The change before it stands there.
    Back(UndoPtr),
    /// A page was needed, and none can be made: it is to be tried again.
    Again,
}
