//! What the node's acts do.
ghost use Rattle.std.specs.Prelude.{◌≡◌, ◌≢◌, ◌↔◌, [], ◌+◌, ℕ, Some, IfOk, OnOk, OnErr, IsTrue, sum_by};
ghost use Rattle.std.specs.Option.{option_copied};
ghost use Rattle.redo_record.specs.Spelling.{IsEncodable};
ghost use Rattle.page_store.specs.Stored.{groups_of, pages_of};
ghost use Rattle.page_pool.specs.State.{bytes_of};
ghost use Rattle.page_pool.specs.Calls.{IsRunnable};
ghost use Rattle.page_pool.specs.Nodes.{is_busy};
ghost use Rattle.plain_pool.specs.Seen.{job_of};
ghost use Rattle.plain_pool.specs.declared.work.Work.TheVariants.{Run};
ghost use Rattle.plain_pool.specs.Plain.{IsApart, fetching, running, resting, looked, installed, kept, released};

use crate::plain::PlainPool;
use crate::work::Work;
use page_image::{Kind, Page};
use page_store::PageStore;
use redo_record::{Group, Plan, encode};
use rm_base::{Duplicate, Items, Lsn, PageId, WantOfMemory};
use std::alloc::Global;

/// Where a log ends that has one more group. No memory holds a log of 2^64 bytes.
fn end_behind(alloc: Global, end: u64, group: &Group) -> Result<u64, WantOfMemory>
    requires { IsEncodable group.now }
    ensures { IfOk result (λ after. after ≡ end + bytes_of group.now) }
{
    let mut spelled = Items::new(alloc);
    encode(alloc, group, &mut spelled)?;
    match end.checked_add(spelled.len() as u64) {
        Some(after) => Ok(after),
        None => Err(WantOfMemory),
    }
}

/// The LSN behind this one. No memory holds a log of 2^64 groups.
fn lsn_behind(last: Lsn) -> Result<Lsn, WantOfMemory>
    ensures { IfOk result (λ lsn. lsn ≡ last + 1) }
{
    match last.number().checked_add(1) {
        Some(next) => Ok(Lsn::new(next)),
        None => Err(WantOfMemory),
    }
}

/// The page, where it is not made.
fn apart(alloc: Global, store: &PageStore, page: PageId) -> Result<Option<Page>, WantOfMemory>
    ensures { IfOk result (λ blank. IsApart store.now page blank) }
{
    match store.page(page) {
        None => Ok(Some(Page::blank(alloc, page)?)),
        Some(found) => {
            if found.kind() == Kind::Unmade {
                Ok(Some(found.copy(alloc)?))
            } else {
                Ok(None)
            }
        }
    }
}

impl PlainPool {
    /// Begins a fetch.
    pub(crate) fn begin_fetch(&mut self, page: PageId)
        ensures { self.new ≡ fetching self.old page }
    {
        self.work = Work::Fetch(page);
        self.handed = None;
    }

    /// Begins a plan.
    pub(crate) fn begin_plan(&mut self, plan: Plan)
        requires { IsRunnable (groups_of self.old.store) plan }
        ensures { self.new ≡ running self.old plan }
    {
        self.work = Work::Run(plan);
        self.handed = None;
    }

    /// Nothing is under way, and nothing handed out.
    pub(crate) fn rest(&mut self)
        ensures { self.new ≡ resting self.old }
    {
        self.work = Work::Rest;
        self.handed = None;
    }

    pub(crate) fn has_work(&self) -> bool
        ensures { result ≡ is_busy (job_of self.now.work) }
    {
        self.work.is_busy()
    }

    /// Whether a group is not kept.
    pub(crate) fn has_unkept(&self) -> bool
        ensures { IsTrue result ↔ (self.now.store.own ≢ []) }
    {
        self.unkept
    }

    /// Whether the page is the one that was handed out.
    pub(crate) fn is_handed(&self, page: PageId) -> bool
        ensures { IsTrue result ↔ (self.now.handed ≡ Some page) }
    {
        self.handed == Some(page)
    }

    /// The page that was handed out.
    pub(crate) fn page(&self, page: PageId) -> Option<&Page>
        requires { self.now.handed ≡ Some page }
        ensures { option_copied result ≡ Some (pages_of self.now.store page) }
    {
        match &self.blank {
            Some(blank) => Some(blank),
            None => self.store.page(page),
        }
    }

    /// The page of the fetch is handed out.
    pub(crate) fn look(&mut self, alloc: Global, page: PageId) -> Result<(), WantOfMemory>
        ensures ok { OnOk result (self.new ≡ looked self.old page) }
        ensures err { OnErr result (self.new ≡ self.old) }
    {
        self.blank = apart(alloc, &self.store, page)?;
        self.work = Work::Rest;
        self.handed = Some(page);
        Ok(())
    }

    /// The group of the plan joins the log and changes its pages. Answers where the log ends now. The
    /// records are copied first, so that want of memory leaves the plan under way.
    pub(crate) fn install(&mut self, alloc: Global) -> Result<u64, WantOfMemory>
        requires { (plan : Plan) × (self.old.work ≡ Run plan) }
        ensures ok { OnOk result (self.new ≡ installed self.old) }
        ensures end { IfOk result (λ end. end ≡ sum_by bytes_of (groups_of self.new.store)) }
        ensures err { OnErr result (self.new ≡ self.old) }
    {
        let group = Group {
            lsn: lsn_behind(self.last)?,
            records: self.work.records(alloc)?,
        };
        let end = end_behind(alloc, self.end, &group)?;
        let Group { lsn, records } = group;
        self.store.run(alloc, records)?;
        self.unkept = true;
        self.last = lsn;
        self.end = end;
        self.work = Work::Rest;
        self.handed = None;
        Ok(end)
    }

    /// All groups are in storage. Answers up to where.
    pub(crate) fn append(&mut self) -> u64
        ensures kept { self.new ≡ kept self.old }
        ensures end { result ≡ sum_by bytes_of (groups_of self.old.store) }
    {
        self.store.keep();
        self.unkept = false;
        self.end
    }

    /// The page that was handed out is let go.
    pub(crate) fn release(&mut self)
        ensures { self.new ≡ released self.old }
    {
        self.handed = None;
    }
}
