//! A test of keys, which asks for one page after the other.
ghost use Rattle.std.specs.Prelude.{◌≡◌, ◌<◌, length, IsTrue, ◌↔◌, OnErr, OnOk};
ghost use Rattle.question_tree.specs.Questions.{wanted, told, after};
ghost use Rattle.range_reader.specs.Finding.{Asked};
ghost use Rattle.key_conflicts.specs.Testing.{test_keys};
ghost use Rattle.key_conflicts.specs.Machine.{stepped, work_of};

use crate::stages::{Stage, Step, fetch_of, take_page};
use crate::verdict::{Met, Tested, note, nothing_known};
use page_image::Page;
use range_reader::{Fetch, Snapshot};
use rm_base::{Bytes, Items, PageId, WantOfMemory};
use std::alloc::Global;

/// Tests the keys that a writer is to change, one after the other. It asks for one page after the
/// other, and is given each.
#[derive(Drop)]
pub struct AskingTest {
    snapshot: Snapshot,
    root: PageId,
    keys: Items<Bytes>,
    at: usize,
    stage: Stage,
    tested: Tested,
}

impl AskingTest {
    /// A test of the keys in the tree with that root.
    #[tactic(auto, using(crate::proofs::AskingLaws::begins))]
    pub fn new(snapshot: Snapshot, root: PageId, keys: Items<Bytes>) -> AskingTest
        ensures { work_of result ≡ test_keys snapshot root keys }
    {
        AskingTest {
            snapshot,
            root,
            keys,
            at: 0,
            stage: Stage::Root(root),
            tested: nothing_known(),
        }
    }

    /// The page that is wanted next. None where all is known, or no more can be.
    #[tactic(auto, using(crate::proofs::AskingLaws::wants_none, crate::proofs::AskingLaws::wants_page))]
    pub fn next(&self) -> Option<Fetch>
        ensures { result ≡ wanted (work_of self.now) }
    {
        if self.at >= self.keys.len() {
            return None;
        }
        fetch_of(self.stage)
    }

    /// Whether this is the page that is wanted, and one that can be given.
    #[tactic(auto, using(crate::proofs::AskingLaws::asks_nothing, crate::proofs::AskingLaws::asks_number, crate::proofs::AskingLaws::asks_suiting))]
    pub fn takes(&self, page: &Page) -> bool
        ensures { IsTrue result ↔ Asked (work_of self.now) page.now }
    {
        let Some(fetch) = self.next() else {
            return false;
        };
        if page.page() != fetch.page() {
            return false;
        }
        fetch.suits(page)
    }

    /// Takes the page that `next` names. After want of memory all is as it was.
    pub fn give(&mut self, alloc: Global, page: &Page) -> Result<(), WantOfMemory>
        requires asked { Asked (work_of self.old) page.now }
        ensures after { OnOk result (work_of self.new ≡ after (work_of self.old) page.now) }
        ensures same { OnErr result (work_of self.new ≡ work_of self.old) }
    {
        match self.step_with(page) {
            Step::Waits(stage) => {
                self.wait_for(stage);
                Ok(())
            }
            Step::Known(met) => self.know(alloc, met),
        }
    }

    /// What follows the page.
    #[tactic(auto, using(crate::proofs::AskingLaws::key_there, crate::proofs::AskingLaws::key_asked, crate::proofs::AskingLaws::key_answered))]
    fn step_with(&self, page: &Page) -> Step
        requires asked { Asked (work_of self.now) page.now }
        ensures after { stepped self.now result ≡ after (work_of self.now) page.now }
        ensures there { self.now.at < length self.now.keys }
    {
        prove!(self.at < self.keys.len());
        let key = self.keys.get(self.at).unwrap();
        take_page(self.stage, &self.snapshot, key.as_slice(), page)
    }

    #[tactic(auto, using(crate::proofs::AskingLaws::waits))]
    fn wait_for(&mut self, stage: Stage)
        ensures { work_of self.new ≡ stepped self.old (Step.Waits stage) }
    {
        self.stage = stage;
    }

    /// Goes on with the next key.
    #[tactic(auto, using(crate::proofs::AskingLaws::knows, crate::proofs::AskingLaws::same_work))]
    fn know(&mut self, alloc: Global, met: Met) -> Result<(), WantOfMemory>
        requires { self.old.at < length self.old.keys }
        ensures after { OnOk result (work_of self.new ≡ stepped self.old (Step.Known met)) }
        ensures same { OnErr result (work_of self.new ≡ work_of self.old) }
    {
        prove!(self.at < self.keys.len());
        let key = self.keys.get(self.at).unwrap();
        note(alloc, &mut self.tested, key, met)?;
        self.at += 1;
        self.stage = Stage::Root(self.root);
        Ok(())
    }

    /// What is known of the keys. None where a page is wanted still, or no more can be known.
    #[tactic(auto, using(crate::proofs::AskingLaws::tells_nothing, crate::proofs::AskingLaws::tells_tested))]
    pub fn into_answer(self) -> Option<Tested>
        ensures { result ≡ told (work_of self) }
    {
        let AskingTest {
            keys,
            at,
            tested,
            ..
        } = self;
        if at < keys.len() {
            return None;
        }
        Some(tested)
    }
}
