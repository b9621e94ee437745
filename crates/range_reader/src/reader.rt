//! A reader of a range, which asks for one page after the other.
ghost use Rattle.std.specs.Prelude.{◌≡◌, ◌≢◌, ◌<◌, ◌-◌, ◌++◌, ◌∷◌, [], ℕ, false, true, Some, None, length, IfOk, OnOk, IsTrue, ◌↔◌};
ghost use Rattle.bplus_tree.specs.Walk as tree;
ghost use Rattle.bplus_tree.specs.Walk.{IsToRead};
ghost use Rattle.question_tree.specs.Questions.{wanted, told, after};
ghost use Rattle.range_reader.specs.Finding as finding;
ghost use Rattle.range_reader.specs.Finding.{Asked, find};
ghost use Rattle.range_reader.specs.Machine as machine;
ghost use Rattle.range_reader.specs.Machine.{Keeps, finding_of, is_kept, is_settled, looked_of, silent, version_of, with_look};

use crate::fetch::{Fetch, MOST_FETCHES, MOST_VERSIONS, Snapshot};
use crate::items::{copy_of, push_items, push_live, take_first};
use crate::stepping::step;
use crate::versions::{Looked, Version, begin};
use bplus_tree::{LeafWalk, Want};
use page_image::Page;
use page_view::LeafItem;
use rm_base::{Items, KeyRange, PageId, WantOfMemory};
use std::alloc::Global;
use std::mem;

/// Finds the versions of a range of a tree's keys that a reader sees. It asks for one page after
/// the other, and is given each.
#[derive(Drop)]
pub struct RangeReader {
    snapshot: Snapshot,
    range: KeyRange,
    walk: LeafWalk,
    left: u32,
    look: Looked,
    todo: Vec<LeafItem>,
    seen: Vec<LeafItem>,
}

/// The page that a search wants, which may go on for so many.
fn fetch_at(want: Want, left: u32) -> Option<Fetch>
    ensures { result ≡ finding.fetch_at want left }
{
    match want {
        Want::Need(page) => Some(down_to(page, left == MOST_FETCHES)),
        Want::Leaf(page) => Some(Fetch::Next(page)),
        Want::Finished => None,
    }
}

fn down_to(page: PageId, first: bool) -> Fetch
    ensures { result ≡ finding.down_to page first }
{
    if first {
        Fetch::Root(page)
    } else {
        Fetch::Child(page)
    }
}

fn is_end(want: Want) -> bool
    ensures { result ≡ machine.is_end want }
{
    match want {
        Want::Finished => true,
        _ => false,
    }
}

/// Puts a version that is seen to those that were.
fn keep(seen: &mut Vec<LeafItem>, look: Looked) -> Result<Looked, WantOfMemory>
    ensures kept { IfOk result (λ now. is_kept now ≡ true) }
    ensures keeps { IfOk result (λ now. Keeps look now seen.old.items seen.new.items) }
{
    match look {
        Looked::Seen(found) => {
            push_live(seen, found)?;
            Ok(Looked::Seen(None))
        }
        Looked::Asking(version) => Ok(Looked::Asking(version)),
    }
}

impl RangeReader {
    /// A reader of the range in the tree with that root.
    #[tactic(auto, using(crate::proofs::ReaderLaws::begins_settled, crate::proofs::ReaderLaws::begins_wants))]
    pub fn new(
        alloc: Global,
        snapshot: Snapshot,
        root: PageId,
        range: &KeyRange,
    ) -> Result<RangeReader, WantOfMemory>
        ensures is { IfOk result (λ f. finding_of f ≡ find snapshot root range.now) }
        ensures settled { IfOk result (λ f. is_settled f ≡ true) }
        ensures wants { IfOk result (λ f. wanted (finding_of f) ≡ Some (Fetch.Root root)) }
    {
        Ok(RangeReader {
            snapshot,
            range: copy_of(alloc, range)?,
            walk: LeafWalk::new(root, copy_of(alloc, range)?),
            left: MOST_FETCHES,
            look: Looked::Seen(None),
            todo: Vec::new(alloc),
            seen: Vec::new(alloc),
        })
    }

    /// The page that is wanted next. None where the versions are known, or cannot be.
    #[tactic(auto, using(crate::proofs::ReaderLaws::version_wants, crate::proofs::ReaderLaws::tree_wants))]
    pub fn next(&self) -> Option<Fetch>
        requires settled { is_settled self.now ≡ true }
        ensures { result ≡ wanted (finding_of self.now) }
    {
        match &self.look {
            Looked::Asking(version) => version.next(),
            Looked::Seen(_) => self.tree_page(),
        }
    }

    /// Whether this is the page that is wanted, and one that can be given.
    #[tactic(auto, using(crate::proofs::ReaderLaws::asks_nothing, crate::proofs::ReaderLaws::asks_number, crate::proofs::ReaderLaws::asks_suiting))]
    pub fn takes(&self, page: &Page) -> bool
        requires settled { is_settled self.now ≡ true }
        ensures { IsTrue result ↔ Asked (finding_of self.now) page.now }
    {
        let Some(fetch) = self.next() else {
            return false;
        };
        if page.page() != fetch.page() {
            return false;
        }
        fetch.suits(page)
    }

    fn tree_page(&self) -> Option<Fetch>
        ensures { result ≡ machine.tree_fetch self.now.left self.now.walk.want }
    {
        match self.left {
            0 => None,
            left => fetch_at(self.walk.next(), left),
        }
    }

    /// Takes the page that `next` names.
    pub fn give(&mut self, alloc: Global, page: &Page) -> Result<(), WantOfMemory>
        requires settled { is_settled self.old ≡ true }
        requires asked { Asked (finding_of self.old) page.now }
        ensures after { OnOk result (finding_of self.new ≡ after (finding_of self.old) page.now) }
        ensures settled { OnOk result (is_settled self.new ≡ true) }
    {
        self.answer(alloc, page)?;
        self.settle_down()
    }

    #[tactic(auto, using(crate::proofs::ReaderLaws::version_asked, crate::proofs::ReaderLaws::version_answered, crate::proofs::ReaderLaws::nothing_left, crate::proofs::ReaderLaws::tree_asked, crate::proofs::ReaderLaws::tree_answered))]
    fn answer(&mut self, alloc: Global, page: &Page) -> Result<(), WantOfMemory>
        requires settled { is_settled self.old ≡ true }
        requires asked { Asked (finding_of self.old) page.now }
        ensures after { OnOk result (finding_of self.new ≡ after (finding_of self.old) page.now) }
        ensures kept { OnOk result (is_kept self.new.look ≡ true) }
    {
        match mem::replace(&mut self.look, Looked::Seen(None)) {
            Looked::Asking(version) => self.judge(alloc, version, page),
            Looked::Seen(_) => self.take(alloc, page),
        }
    }

    /// Takes the page that a version waits for.
    #[tactic(auto, using(crate::proofs::ReaderLaws::judges))]
    fn judge(&mut self, alloc: Global, version: Version, page: &Page) -> Result<(), WantOfMemory>
        requires { Asked (version_of self.old.snapshot version) page.now }
        ensures after { OnOk result
            (finding_of self.new ≡ with_look self.old
            (after (version_of self.old.snapshot version) page.now)) }
        ensures kept { OnOk result (is_kept self.new.look ≡ true) }
    {
        let look = version.given(alloc, &self.snapshot, page)?;
        self.look = keep(&mut self.seen, look)?;
        Ok(())
    }

    /// Takes a page of the tree.
    #[tactic(auto, using(crate::proofs::ReaderLaws::takes, crate::proofs::ReaderLaws::take_wanted, crate::proofs::ReaderLaws::take_readable, crate::proofs::ReaderLaws::take_left, crate::proofs::ReaderLaws::seen_is_kept))]
    fn take(&mut self, alloc: Global, page: &Page) -> Result<(), WantOfMemory>
        requires look { self.old.look ≡ Looked.Seen None }
        requires empty { self.old.todo.items ≡ [] }
        requires asked { Asked (finding_of self.old) page.now }
        ensures after { OnOk result (finding_of self.new ≡ after (finding_of self.old) page.now) }
        ensures kept { OnOk result (is_kept self.new.look ≡ true) }
    {
        push_items(alloc, &mut self.todo, page, &self.range)?;
        step(&mut self.walk, page);
        self.left -= 1;
        Ok(())
    }

    /// Looks at each item that needs no page.
    #[tactic(auto, using(crate::proofs::ReaderLaws::settled_now))]
    fn settle_down(&mut self) -> Result<(), WantOfMemory>
        requires { is_kept self.old.look ≡ true }
        ensures same { OnOk result (finding_of self.new ≡ finding_of self.old) }
        ensures settled { OnOk result (is_settled self.new ≡ true) }
    {
        while self.is_silent() {
            self.pass_one()?;
        }
        Ok(())
    }

    fn is_silent(&self) -> bool
        ensures { result ≡ silent self.now }
    {
        match &self.look {
            Looked::Asking(_) => false,
            Looked::Seen(_) => self.has_items(),
        }
    }

    fn has_items(&self) -> bool
        ensures { result ≡ machine.has_items self.now.todo.items }
    {
        match self.todo.as_slice() {
            [] => false,
            [_, ..] => true,
        }
    }

    /// Looks at the next item.
    #[tactic(auto, using(crate::proofs::ReaderLaws::passes_on, crate::proofs::ReaderLaws::not_silent))]
    fn pass_one(&mut self) -> Result<(), WantOfMemory>
        requires kept { is_kept self.old.look ≡ true }
        requires silent { silent self.old ≡ true }
        ensures same { OnOk result (finding_of self.new ≡ finding_of self.old) }
        ensures kept { OnOk result (is_kept self.new.look ≡ true) }
        ensures fewer { OnOk result (length self.new.todo.items < length self.old.todo.items) }
    {
        match take_first(&mut self.todo) {
            None => Ok(()),
            Some(item) => {
                let look = begin(&self.snapshot, item, MOST_VERSIONS);
                self.look = keep(&mut self.seen, look)?;
                Ok(())
            }
        }
    }

    fn is_done(&self) -> bool
        ensures { result ≡ machine.done_by self.now.look self.now.walk.want }
    {
        match &self.look {
            Looked::Asking(_) => false,
            Looked::Seen(_) => is_end(self.walk.next()),
        }
    }

    /// The versions, in the order of their keys. None where a page is wanted still, or no more can
    /// be known.
    #[tactic(auto, using(crate::proofs::ReaderLaws::tells_seen, crate::proofs::ReaderLaws::tells_nothing))]
    pub fn into_items(self) -> Option<Items<LeafItem>>
        requires { is_settled self ≡ true }
        ensures { result ≡ told (finding_of self) }
    {
        let done = self.is_done();
        let RangeReader { seen, .. } = self;
        if !done {
            return None;
        }
        Some(Items::from_vec(seen))
    }
}
