//! Pages that are asked for.
ghost use Rattle.std.specs.Prelude.{◌≡◌, IsTrue, ◌↔◌};
ghost use Rattle.range_reader.specs.Finding.{page_of, Suits};

use bplus_tree::can_be_read;
use page_image::{Kind, Page};
use rm_base::{PageId, Stamp, TrxId};

/// A page that is wanted next, and how the one before it is held meanwhile.
#[derive(Clone, Copy, Debug, PartialEq, Eq)]
pub enum Fetch {
    /// The root of a tree. Nothing is held.
    Root(PageId),
    /// A child of the page that was given last, which is held until the child is.
    Child(PageId),
    /// The leaf to the right. Nothing is held.
    Next(PageId),
    /// A page of stamps. Nothing is held.
    Stamps(PageId),
    /// A page with an older version. Nothing is held.
    Undo(PageId),
}

/// What a reader sees: the commits up to a stamp, and its own transaction's changes, if it has one.
#[derive(Clone, Copy, Debug, PartialEq, Eq)]
pub struct Snapshot {
    pub stamp: Stamp,
    pub own: Option<TrxId>,
}

/// How many pages of a tree are asked for at most: a way down, and each page that there is.
pub const MOST_FETCHES: u32 = 32777;

/// How many versions of an item are looked at at most: as many as there are places of items.
pub const MOST_VERSIONS: u32 = 2_147_483_648;

impl Fetch {
    /// The page's number.
    pub fn page(&self) -> PageId
        ensures { result ≡ page_of self.now }
    {
        match self {
            Fetch::Root(page)
            | Fetch::Child(page)
            | Fetch::Next(page)
            | Fetch::Stamps(page)
            | Fetch::Undo(page) => *page,
        }
    }

    /// Whether a page can be given for this.
    pub fn suits(&self, page: &Page) -> bool
        ensures { IsTrue result ↔ Suits self.now page.now }
    {
        match self {
            Fetch::Root(_) | Fetch::Child(_) | Fetch::Next(_) => can_be_read(page),
            Fetch::Stamps(_) => page.kind() == Kind::Stamps,
            Fetch::Undo(_) => true,
        }
    }
}
