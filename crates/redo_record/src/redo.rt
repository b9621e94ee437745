ghost use Rattle.std.specs.Prelude.{◌≡◌};
ghost use Rattle.redo_record.specs.Effect.{page_of};

use page_image::Kind;
use rm_base::{Bytes, Duplicate, Items, Lsn, PageId, WantOfMemory};
use std::alloc::Global;

/// One change of one page.
#[derive(Debug, Drop)]
pub enum Record {
    /// The page becomes the empty page of a kind, on a level.
    Make {
        page: PageId,
        kind: Kind,
        level: u8,
    },
    /// Bytes of the body are overwritten, `at` bytes from the page's start.
    Patch {
        page: PageId,
        at: u16,
        bytes: Bytes,
    },
    /// An item joins the page's items, before the one at `index`.
    InsertSlot {
        page: PageId,
        index: u16,
        bytes: Bytes,
    },
    /// The item at `index` leaves.
    RemoveSlot {
        page: PageId,
        index: u16,
    },
    /// The items from `from` on leave.
    Cut {
        page: PageId,
        from: u16,
    },
    /// The page is linked to its right neighbour, or to none by 0.
    Link {
        page: PageId,
        next: u32,
    },
}

// The byte that a record's spelling begins with.
pub(crate) const MAKE: u8 = 1;

pub(crate) const PATCH: u8 = 2;

pub(crate) const INSERT_SLOT: u8 = 3;

pub(crate) const REMOVE_SLOT: u8 = 4;

pub(crate) const CUT: u8 = 5;

pub(crate) const LINK: u8 = 6;

/// How many bytes a group has before its records.
pub(crate) const GROUP_HEADER_BYTES: usize = 14;

impl Record {
    /// The page that the record changes.
    pub fn page(&self) -> PageId
        ensures { result ≡ page_of self.now }
    {
        match self {
            Record::Make { page, .. } => *page,
            Record::Patch { page, .. } => *page,
            Record::InsertSlot { page, .. } => *page,
            Record::RemoveSlot { page, .. } => *page,
            Record::Cut { page, .. } => *page,
            Record::Link { page, .. } => *page,
        }
    }
}

/// Changes in their order.
pub type Records = Items<Record>;

/// Changes that are made together or not at all.
#[derive(Debug, Drop)]
pub struct Group {
    /// The group's number in the log.
    pub lsn: Lsn,
    /// The changes in the order in which they are made.
    pub records: Records,
}

/// Groups in the order of the log.
pub type Groups = Items<Group>;

impl Duplicate for Record {
    fn copy(&self, alloc: Global) -> Result<Record, WantOfMemory> {
        let copied = match self {
            Record::Make { page, kind, level } => Record::Make {
                page: *page,
                kind: *kind,
                level: *level,
            },
            Record::Patch { page, at, bytes } => Record::Patch {
                page: *page,
                at: *at,
                bytes: bytes.copy(alloc)?,
            },
            Record::InsertSlot { page, index, bytes } => Record::InsertSlot {
                page: *page,
                index: *index,
                bytes: bytes.copy(alloc)?,
            },
            Record::RemoveSlot { page, index } => Record::RemoveSlot {
                page: *page,
                index: *index,
            },
            Record::Cut { page, from } => Record::Cut {
                page: *page,
                from: *from,
            },
            Record::Link { page, next } => Record::Link {
                page: *page,
                next: *next,
            },
        };
        Ok(copied)
    }
}

impl Duplicate for Group {
    fn copy(&self, alloc: Global) -> Result<Group, WantOfMemory> {
        Ok(Group {
            lsn: self.lsn,
            records: self.records.copy(alloc)?,
        })
    }
}
