//! The plain pool.
ghost use Rattle.std.specs.Prelude.{◌≡◌, IfOk};
ghost use Rattle.plain_pool.specs.Plain.{begun};

use crate::work::Work;
use page_image::Page;
use page_store::PageStore;
use rm_base::{Lsn, PageId, WantOfMemory};
use std::alloc::Global;
use std::marker::Model;

/// The pages and the log of a cluster of one node. Contracts see the log, what is under way, and the page
/// that was handed out.
#[derive(Drop)]
pub struct PlainPool {
    pub(crate) store: PageStore,
    pub(crate) work: Work,
    pub(crate) handed: Option<PageId>,
    /// That page, where it is not made.
    pub(crate) blank: Option<Page>,
    /// Whether a group is not kept.
    pub(crate) unkept: bool,
    pub(crate) last: Lsn,
    pub(crate) end: u64,
}

impl Model for PlainPool {
    ghost use Rattle.plain_pool.specs.Plain.{Plain, IsPlain};

    ghost Value = { Plain };

    ghost view = { λ pool. record { store = pool.store; work = pool.work; handed = pool.handed } };

    ghost invariant = { λ pool. IsPlain pool.store pool.work pool.handed pool.blank pool.unkept pool.last pool.end };
}

impl PlainPool {
    /// A pool whose log is the opening, which is kept.
    pub(crate) fn begun(alloc: Global) -> Result<PlainPool, WantOfMemory>
        ensures { IfOk result (λ pool. pool ≡ begun) }
    {
        let store = PageStore::new(alloc)?;
        let end = store.log().len() as u64;
        Ok(PlainPool {
            store,
            work: Work::Rest,
            handed: None,
            blank: None,
            unkept: false,
            last: Lsn::new(1),
            end,
        })
    }
}
