use message_model::{Appended, Got};
use page_image::Page;
use rm_base::{Addr, Bytes, Duplicate, Epoch, Lsn, PageId, PageList, WantOfMemory};
use std::alloc::Global;

/// What a node asks of the home or of storage.
#[derive(Debug, Drop)]
pub enum Ask {
    Register(PageId),
    Unregister(PageId),
    Invalidate(PageList),
    /// The bytes are to stand in the log from the offset on.
    Append { offset: u64, bytes: Bytes },
    /// The page with all groups up to the floor, or later ones.
    Get { page: PageId, floor: Lsn },
}

/// What is answered to a call.
#[derive(Debug, Drop)]
pub enum Reply {
    /// The page is at the address. The bit says that the pool's copy may not be the latest.
    Registered { addr: Addr, bit: bool, floor: Lsn },
    /// Each slot is taken by a page that may not be given away.
    PoolFull { slots: u32 },
    Unregistered,
    /// So many local bits are still to be set.
    Started { due: u32 },
    /// No local bit is still to be set.
    Done,
    Appended(Appended),
    Got(Got),
    /// The call's epoch is older than the server's, which is this one.
    Fenced(Epoch),
}
