ghost use Rattle.std.specs.Prelude.{◌≡◌};
ghost use Rattle.bplus_tree.specs.Walk as walk;

use rm_base::{MAX_PAGE_ID, PageId};

/// How often a search goes on from a leaf at most: once less than there are pages.
pub const MOST_STEPS: u32 = MAX_PAGE_ID;

/// What a search asks for next.
#[derive(Clone, Copy, Debug, PartialEq, Eq)]
pub enum Want {
    /// A page on the way down, or one that is not known to be a leaf.
    Need(PageId),
    /// A leaf of the result. Its items are to be taken before the search is told of it.
    Leaf(PageId),
    Finished,
}

impl Want {
    /// The page that is wanted. None where the search is finished.
    pub fn page(&self) -> Option<PageId>
        ensures { result ≡ walk.wanted self.now }
    {
        match self {
            Want::Need(page) | Want::Leaf(page) => Some(*page),
            Want::Finished => None,
        }
    }
}
