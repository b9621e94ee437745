ghost use Rattle.std.specs.Prelude.{◌≡◌, ◌≤◌, ℕ, length, IfOk, OnOk, OnErr, MatchOption};
ghost use Rattle.std.specs.List.{AllByRecursion};
ghost use Rattle.page_image.specs.Image.{unmade};
ghost use Rattle.redo_record.specs.Spelling.{Spells, IsAdmitted};
ghost use Rattle.redo_record.specs.Effect.{CountsFrom, RecordsApply};
ghost use Rattle.page_store.specs.Stored.{groups_of, pages_of, with_group, all_kept, given_back};
ghost use Rattle.page_store.specs.Opening.{opened};

use crate::frames::Frames;
use crate::journal::Journal;
use page_image::Page;
use redo_record::{Group, Records, opening_records};
use rm_base::{PageId, WantOfMemory};
use std::alloc::Global;
use std::marker::Model;

/// A log and the pages that it leaves. Contracts see the groups of the log: those that are kept, and
/// those since, which can be given back. The pages are by definition what the groups make of them.
#[derive(Drop)]
pub struct PageStore {
    journal: Journal,
    frames: Frames,
}

impl Model for PageStore {
    ghost use Rattle.page_store.specs.Stored.{Stored};
    ghost use Rattle.page_store.specs.Holding.{Holds};

    ghost Value = { Stored };

    ghost view = { λ s. s.journal };

    ghost invariant = { λ s. Holds s.frames s.journal };
}

impl PageStore {
    /// A store whose log is the opening alone, which is kept.
    pub fn new(alloc: Global) -> Result<PageStore, WantOfMemory>
        ensures { IfOk result (λ store. store ≡ opened) }
    {
        let mut store = PageStore {
            journal: Journal::new(alloc),
            frames: Frames::new(alloc),
        };
        store.run(alloc, opening_records(alloc)?)?;
        store.keep();
        Ok(store)
    }

    /// The page as the log leaves it. None only where it is not made.
    pub fn page(&self, p: PageId) -> Option<&Page>
        ensures { MatchOption result (pages_of self.now p ≡ unmade p) (λ page. page.now ≡ pages_of self.now p) }
    {
        self.frames.page(p)
    }

    /// Runs a group of these records: it joins the log, and its records change their pages.
    pub fn run(&mut self, alloc: Global, records: Records) -> Result<(), WantOfMemory>
        requires some { 1 ≤ length records }
        requires most { length records ≤ 65535 }
        requires admitted { AllByRecursion IsAdmitted records }
        requires apply { (lsn p : ℕ) → RecordsApply lsn records (pages_of self.old p) }
        ensures ok { OnOk result (self.new ≡ with_group self.old records) }
        ensures err { OnErr result (self.new ≡ self.old) }
    {
        let group = Group {
            lsn: self.journal.next_lsn()?,
            records,
        };
        self.frames.prepare_all(alloc, group.records.as_slice())?;
        self.journal.append(alloc, &group)?;
        self.frames.change_all(&group);
        Ok(())
    }

    /// Keeps the groups that are not kept yet. It takes no memory.
    pub fn keep(&mut self)
        ensures { self.new ≡ all_kept self.old }
    {
        self.journal.keep();
        self.frames.keep();
    }

    /// Gives the groups that are not kept back, and what they changed. It takes no memory.
    pub fn give_back(&mut self)
        ensures { self.new ≡ given_back self.old }
    {
        self.journal.give_back();
        self.frames.give_back();
    }

    /// The bytes of the kept groups.
    pub fn log(&self) -> &[u8]
        ensures spelled { Spells result.now self.now.kept }
        ensures counted { CountsFrom 0 (groups_of self.now) }
    {
        self.journal.kept()
    }
}
