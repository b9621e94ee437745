ghost use Rattle.std.specs.Prelude.{◌≡◌, ◌<◌, ◌≤◌, ℕ, [], length, All, OnOk, MatchOption};
ghost use Rattle.std.specs.List.{AllByRecursion};
ghost use Rattle.page_image.specs.Image.{unmade, Follows};
ghost use Rattle.redo_record.specs.Effect.{page_of, step, after_records, RecordsApply};
ghost use Rattle.page_store.specs.Frames.{settled, unchanged, frame_at, kept_at, page_at, HasCopy, SameKept, SamePages, SameCopies, Ends, Fits};

use crate::frame::Frame;
use page_image::Page;
use redo_record::{Group, Record};
use rm_base::{Lsn, PageId, WantOfMemory};
use std::alloc::Global;
use std::marker::Model;

/// The pages in memory, by their numbers. The pages that have a working copy are listed apart, so that
/// to keep or give back changes costs no more than these. Contracts see the frames.
#[derive(Drop)]
pub(crate) struct Frames {
    frames: Vec<Frame>,
    changed: Vec<PageId>,
}

impl Model for Frames {
    ghost use Rattle.std.specs.Prelude.{List};
    ghost use Rattle.page_store.specs.declared.frame.Frame.{Frame};
    ghost use Rattle.page_store.specs.Frames.{AreFrames};

    ghost Value = { List Frame };

    ghost view = { λ f. f.frames.items };

    ghost invariant = { λ f. AreFrames f.frames.items f.changed.items };
}

/// Makes frames up to the page's.
fn grow(frames: &mut Vec<Frame>, p: PageId) -> Result<(), WantOfMemory>
    ensures same { (q : ℕ) → frame_at frames.new.items q ≡ frame_at frames.old.items q }
    ensures longer { length frames.old.items ≤ length frames.new.items }
    ensures ok { OnOk result (p < length frames.new.items) }
{
    for _ in frames.len()..p.number() as usize + 1 {
        frames.push(Frame::new())?;
    }
    Ok(())
}

/// Keeps the changes of the pages.
fn keep_all(frames: &mut [Frame], pages: &[PageId])
    requires { All (λ p. p < length frames.old) pages.now }
    ensures { Ends settled pages.now frames.old frames.new }
{
    for p in pages {
        let place = p.number() as usize;
        frames[place].keep();
    }
}

/// Gives the changes of the pages back.
fn give_back_all(frames: &mut [Frame], pages: &[PageId])
    requires { All (λ p. p < length frames.old) pages.now }
    ensures { Ends unchanged pages.now frames.old frames.new }
{
    for p in pages {
        let place = p.number() as usize;
        frames[place].give_back();
    }
}

impl Frames {
    pub fn new(alloc: Global) -> Frames
        ensures { result ≡ [] }
    {
        Frames {
            frames: Vec::new(alloc),
            changed: Vec::new(alloc),
        }
    }

    /// The page with its changes. None only where it is not made.
    pub fn page(&self, p: PageId) -> Option<&Page>
        ensures { MatchOption result (page_at self.now p ≡ unmade p) (λ page. page.now ≡ page_at self.now p) }
    {
        let place = p.number() as usize;
        if place >= self.frames.len() {
            return None;
        }
        self.frames[place].page()
    }

    /// Gives the page a working copy, where it has none.
    pub fn prepare(&mut self, alloc: Global, p: PageId) -> Result<(), WantOfMemory>
        ensures ok { OnOk result (HasCopy self.new p) }
        ensures kept { SameKept self.old self.new }
        ensures pages { SamePages self.old self.new }
        ensures copies { SameCopies self.old self.new }
    {
        grow(&mut self.frames, p)?;
        let place = p.number() as usize;
        if self.frames[place].working.is_some() {
            return Ok(());
        }
        let copy = self.frames[place].kept_copy(alloc, p)?;
        self.changed.push(p)?;
        self.frames[place].working = Some(copy);
        Ok(())
    }

    /// Gives each page of the records a working copy.
    pub fn prepare_all(&mut self, alloc: Global, records: &[Record]) -> Result<(), WantOfMemory>
        ensures ok { OnOk result (AllByRecursion (λ r. HasCopy self.new (page_of r)) records.now) }
        ensures kept { SameKept self.old self.new }
        ensures pages { SamePages self.old self.new }
    {
        for r in records {
            self.prepare(alloc, r.page())?;
        }
        Ok(())
    }

    /// Does a record of a group with that LSN to the working copy of its page.
    fn change(&mut self, r: &Record, lsn: Lsn)
        requires copy { HasCopy self.old (page_of r.now) }
        requires fits { Fits r.now lsn (page_at self.old (page_of r.now)) }
        ensures kept { SameKept self.old self.new }
        ensures pages { (p : ℕ) → (page_at self.old p).page ≡ p → page_at self.new p ≡ step lsn (page_at self.old p) r.now }
        ensures copies { SameCopies self.old self.new }
    {
        let place = r.page().number() as usize;
        self.frames[place].change(r, lsn);
    }

    /// Does the records of a group in their order.
    pub fn change_all(&mut self, group: &Group)
        requires copies { AllByRecursion (λ r. HasCopy self.old (page_of r)) group.now.records }
        requires numbers { (p : ℕ) → (page_at self.old p).page ≡ p }
        requires follows { (p : ℕ) → Follows (page_at self.old p) group.now.lsn }
        requires apply { (p : ℕ) → RecordsApply group.now.lsn group.now.records (page_at self.old p) }
        ensures kept { SameKept self.old self.new }
        ensures pages { (p : ℕ) → page_at self.new p ≡ after_records group.now.lsn group.now.records (page_at self.old p) }
    {
        for r in group.records.as_slice() {
            self.change(r, group.lsn);
        }
    }

    /// Keeps all changes.
    pub fn keep(&mut self)
        ensures kept { (p : ℕ) → kept_at self.new p ≡ page_at self.old p }
        ensures pages { (p : ℕ) → page_at self.new p ≡ page_at self.old p }
    {
        keep_all(self.frames.as_mut_slice(), self.changed.as_slice());
        self.changed.clear();
    }

    /// Gives all changes back.
    pub fn give_back(&mut self)
        ensures kept { (p : ℕ) → kept_at self.new p ≡ kept_at self.old p }
        ensures pages { (p : ℕ) → page_at self.new p ≡ kept_at self.old p }
    {
        give_back_all(self.frames.as_mut_slice(), self.changed.as_slice());
        self.changed.clear();
    }
}
