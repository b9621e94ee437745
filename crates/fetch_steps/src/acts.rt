use message_network::{Reply, Seen};
use page_latches::{Latch, Mode};
use rm_base::{Addr, Lsn, PageId, PageList};
use slab_node::SlabNo;

/// What a fetch or a plan asks for next: a call to the home or to storage, an access to the home's
/// tables or to a slab, or an act of the node itself.
#[derive(Debug, Drop)]
pub enum Action {
    Register(PageId),
    Unregister(PageId),
    Latch(PageId, Mode),
    Release(PageId),
    Look(PageId),
    Read(PageId, Addr),
    /// Storage is asked for the page with all groups up to the LSN, or with later ones.
    Get(PageId, Lsn),
    Write(PageId, Addr),
    /// The home is told that the slot holds the page as of the LSN.
    Clean(PageId, Lsn),
    Invalidate(PageList),
    Install,
    Append,
    /// Nothing is left to do.
    Finished,
}

/// What a fetch or a plan is told of its act.
#[derive(Debug, Drop)]
pub enum Told {
    /// The answer to a call.
    Answer(Reply),
    /// Of a try, and of a release, which is `Granted` once it was made.
    Latch(Latch),
    /// Of a look. None where the home has no entry of the page.
    Seen(Option<Seen>),
    /// Of a read or a write, and of a clean that the home does not take since the page has another
    /// address by now, which is `OldSlab`.
    Slab(Result<(), SlabNo>),
    /// Of a clean: whether the home has an entry of the page.
    Cleaned(bool),
    Installed,
    /// Nothing is known of the access: it was lost, or it was made and not seen.
    NoAnswer,
}
