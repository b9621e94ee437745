ghost use Rattle.std.specs.Prelude.{◌≡◌, ℕ, Some, IfOk, IsSome, MatchOption};
ghost use Rattle.std.specs.Option.{ForSome};
ghost use Rattle.page_image.specs.Image.{Image, unmade};
ghost use Rattle.redo_record.specs.Effect.{effect};
ghost use Rattle.page_store.specs.Frames.{empty, kept_of, page_in, settled, unchanged, Fits};

use page_image::Page;
use redo_record::{Record, apply};
use rm_base::{Duplicate, Lsn, PageId, WantOfMemory};
use std::alloc::Global;

/// One page in memory: as it is kept, and a working copy where it is changed. None is there of a page
/// that is not made.
#[derive(Drop)]
pub(crate) struct Frame {
    pub kept: Option<Page>,
    pub working: Option<Page>,
}

impl Frame {
    pub fn new() -> Frame
        ensures { result ≡ empty }
    {
        Frame {
            kept: None,
            working: None,
        }
    }

    /// The page with its changes. None only where it is not made.
    pub fn page(&self) -> Option<&Page>
        ensures { (p : ℕ) → MatchOption result (page_in p self.now ≡ unmade p) (λ page. page.now ≡ page_in p self.now) }
    {
        match &self.working {
            Some(page) => Some(page),
            None => self.kept.as_ref(),
        }
    }

    /// A copy of the page as it is kept.
    pub fn kept_copy(&self, alloc: Global, p: PageId) -> Result<Page, WantOfMemory>
        ensures { IfOk result (λ page. page ≡ kept_of p self.now) }
    {
        match &self.kept {
            Some(page) => page.copy(alloc),
            None => Page::blank(alloc, p),
        }
    }

    /// Does a record of a group with that LSN to the working copy.
    pub fn change(&mut self, r: &Record, lsn: Lsn)
        requires there { IsSome self.old.working }
        requires fits { ForSome self.old.working (Fits r.now lsn) }
        ensures { (page : Image) → self.old.working ≡ Some page → self.new ≡ record self.old { working = Some (effect r.now lsn page) } }
    {
        match &mut self.working {
            Some(page) => {
                if apply(page, r, lsn).is_err() {
                    unreachable!()
                }
            }
            None => unreachable!(),
        }
    }

    /// Keeps the changes.
    pub fn keep(&mut self)
        ensures { self.new ≡ settled self.old }
    {
        if self.working.is_some() {
            self.kept = self.working.take();
        }
    }

    /// Gives the changes back.
    pub fn give_back(&mut self)
        ensures { self.new ≡ unchanged self.old }
    {
        self.working = None;
    }
}
