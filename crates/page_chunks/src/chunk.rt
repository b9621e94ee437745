ghost use Rattle.std.specs.Prelude.{◌≡◌, ◌≢◌, ◌≤◌, ◌<◌, ◌+◌, ◌*◌, ◌∷◌, ◌++◌, [], ℕ, List, length, IsTrue, ◌↔◌, IsOk, IfOk, OnOk, OnErr};
ghost use Rattle.std.specs.List.{AllByRecursion};
ghost use Rattle.redo_record.specs.declared.redo.Group.{Group};
ghost use Rattle.redo_record.specs.Effect.{CountsFrom};
ghost use Rattle.page_chunks.specs.Entries.{empty, records_for};
ghost use Rattle.page_chunks.specs.Chunk.{InChunk, waiting, answer_of, answer_by, CanShip, IsShipped, skipped, PassBy, AnswersSame, HasGot};

use crate::entries::Entry;
use crate::judging::all_apply;
use crate::taking::take_all;
use message_model::Got;
use redo_record::Group;
use rm_base::{Lsn, PAGES_PER_CHUNK, PageId, WantOfMemory};
use std::alloc::Global;
use std::marker::Model;

/// The pages from 256 times the chunk's number on, as the groups that were shipped leave them.
#[derive(Drop)]
pub struct PageChunk {
    number: u8,
    applied: Lsn,
    entries: Vec<Entry>,
}

impl Model for PageChunk {
    ghost use Rattle.page_chunks.specs.Chunk.{Chunk, IsChunk};

    ghost Value = { Chunk };

    ghost view = { λ c. record { number = c.number; applied = c.applied; entries = c.entries.items } };

    ghost invariant = { λ c. IsChunk (record { number = c.number; applied = c.applied; entries = c.entries.items }) };
}

/// So many entries of pages of which nothing is kept.
fn blank_entries(alloc: Global, count: u32) -> Result<Vec<Entry>, WantOfMemory>
    ensures blank { IfOk result (λ es. AllByRecursion (λ e. e ≡ empty) es.items) }
    ensures all { IfOk result (λ es. length es.items ≡ count) }
{
    let mut entries = Vec::new(alloc);
    for place in 0..count {
        entries.push(Entry::new(alloc))?;
    }
    Ok(entries)
}

impl PageChunk {
    /// The chunk with that number before a group is shipped to it.
    pub fn new(alloc: Global, c: u8) -> Result<PageChunk, WantOfMemory>
        requires { c < 128 }
        ensures number { IfOk result (λ chunk. chunk.number ≡ c) }
        ensures got { IfOk result (λ chunk. HasGot chunk []) }
        ensures none { IfOk result (λ chunk. (p : ℕ) → InChunk chunk p → waiting chunk p ≡ []) }
    {
        let entries = blank_entries(alloc, PAGES_PER_CHUNK)?;
        Ok(PageChunk {
            number: c,
            applied: Lsn::new(0),
            entries,
        })
    }

    /// The LSN of the last group that was shipped, or 0.
    pub fn applied(&self) -> Lsn
        ensures { result ≡ self.now.applied }
    {
        self.applied
    }

    /// The number of the chunk.
    pub fn number(&self) -> u8
        ensures value { result ≡ self.now.number }
        ensures bound { self.now.number < 128 }
    {
        self.number
    }

    /// Whether the page is one of the chunk's.
    pub fn holds(&self, p: PageId) -> bool
        ensures { IsTrue result ↔ InChunk self.now p }
    {
        let first = PAGES_PER_CHUNK * u32::from(self.number);
        first <= p.number() && p.number() < first + PAGES_PER_CHUNK
    }

    /// Whether it holds a record for the page past the base image's LSN.
    pub fn pending(&self, p: PageId) -> bool
        requires { InChunk self.now p }
        ensures { IsTrue result ↔ (waiting self.now p ≢ []) }
    {
        let place = (p.number() - PAGES_PER_CHUNK * u32::from(self.number)) as usize;
        !self.entries[place].pending.is_empty()
    }

    /// The page as the groups that were shipped leave it, unless the groups up to `floor` are not all
    /// there. That test takes no memory.
    pub fn get(&self, alloc: Global, p: PageId, floor: Lsn) -> Result<Got, WantOfMemory>
        requires { InChunk self.now p }
        ensures answer { IfOk result (λ got. got ≡ answer_of self.now p floor) }
        ensures by_log { IfOk result (λ got. (groups : List Group) → HasGot self.now groups → got ≡ answer_by groups p floor) }
        ensures not_yet { self.now.applied < floor → IsOk result }
    {
        if self.applied < floor {
            return Ok(Got::NotYet {
                applied: self.applied,
            });
        }
        let place = (p.number() - PAGES_PER_CHUNK * u32::from(self.number)) as usize;
        let page = self.entries[place].image(alloc, p)?;
        Ok(Got::Image(page))
    }

    /// Whether the group is the next one and its records for the chunk's pages apply in order.
    pub fn can_ship(&self, alloc: Global, g: &Group) -> Result<bool, WantOfMemory>
        ensures { IfOk result (λ can. IsTrue can ↔ CanShip self.now g.now) }
    {
        let first = PAGES_PER_CHUNK * u32::from(self.number);
        let lsn = g.lsn.number();
        if lsn == 0 || lsn - 1 != self.applied.number() {
            return Ok(false);
        }
        all_apply(alloc, self.entries.as_slice(), first, g)
    }

    /// Takes the next group's records for the chunk's pages.
    pub fn ship(&mut self, alloc: Global, g: &Group) -> Result<(), WantOfMemory>
        requires { CanShip self.old g.now }
        ensures ok { OnOk result (IsShipped self.old g.now self.new) }
        ensures err { OnErr result (self.new ≡ self.old) }
        ensures got { OnOk result ((groups : List Group) → HasGot self.old groups → HasGot self.new (groups ++ g.now ∷ [])) }

        // The group's records wait for their pages, behind those that did.
        ensures waiting { OnOk result ((p : ℕ) → InChunk self.old p
            → waiting self.new p ≡ waiting self.old p ++ records_for p g.now) }
    {
        let first = PAGES_PER_CHUNK * u32::from(self.number);
        take_all(self.entries.as_mut_slice(), alloc, first, g)?;
        self.applied = g.lsn;
        Ok(())
    }

    /// Passes over groups without a record for the chunk's pages, up to the one with that LSN, as if each
    /// was shipped.
    pub fn skip(&mut self, to: Lsn)
        requires { self.old.applied ≤ to }
        ensures skipped { self.new ≡ skipped self.old to }
        ensures got { (groups more : List Group) → HasGot self.old groups → CountsFrom (length groups) more
            → PassBy self.old more → length groups + length more ≡ to → HasGot self.new (groups ++ more) }
    {
        self.applied = to;
    }

    /// Folds the records for the page into its base image. No answer changes.
    pub fn fold(&mut self, alloc: Global, p: PageId) -> Result<(), WantOfMemory>
        requires { InChunk self.old p }
        ensures ok { OnOk result (AnswersSame self.old self.new) }
        ensures none { OnOk result (waiting self.new p ≡ []) }
        ensures others { (q : ℕ) → InChunk self.old q → q ≢ p → waiting self.new q ≡ waiting self.old q }
        ensures err { OnErr result (self.new ≡ self.old) }
        ensures got { OnOk result ((groups : List Group) → HasGot self.old groups → HasGot self.new groups) }
    {
        let place = (p.number() - PAGES_PER_CHUNK * u32::from(self.number)) as usize;
        let entry = &mut self.entries[place];
        entry.fold(alloc, p)
    }
}
