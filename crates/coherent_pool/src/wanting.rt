//! What a node's fetch of a page asks for next, by its kind: the tests of what the node may be
//! told.
ghost use Rattle.std.specs.Prelude.{◌≡◌, ℕ, Bool, true, false};
ghost use Rattle.page_image.specs.Image.{Image};
ghost use Rattle.node_model.specs.Call.{Call, Call.ToldRegistered, Call.ToldImage};
ghost use Rattle.coherent_pool.specs.Standing.{kind_of, wants_at, wants_in, takes_at};
ghost use Rattle.coherent_pool.specs.Wanting.{wants_of};

use crate::node::PoolNode;
use crate::standing;
use crate::works::{FetchWork, Stage};
use fetch_steps::{Action, FetchStep};
use page_latches::Mode;
use rm_base::PageId;

/// What a fetch, or a plan of the page, asks for next, by its kind.
#[derive(Clone, Copy, Debug, PartialEq, Eq)]
pub enum Wants {
    Register,
    Share,
    Exclude,
    Release,
    Look,
    Read,
    Get,
    Write,
    Clean,
    /// The pages of a plan are to be invalidated.
    Invalidate,
    /// The plan's change is to be made in the copy.
    Install,
    /// The copy is to stand in the slot.
    WriteCopy,
    /// The home is to be told that the slot holds the copy.
    CleanCopy,
    /// The slot of a plan's page is lost: the page is to be registered again.
    RegisterAgain,
    Nothing,
}

fn kind_of(act: &Action) -> Wants
    ensures { result ≡ kind_of act.now }
{
    match act {
        Action::Register(_) => Wants::Register,
        Action::Latch(_, Mode::S) => Wants::Share,
        Action::Latch(_, Mode::X) => Wants::Exclude,
        Action::Release(_) => Wants::Release,
        Action::Look(_) => Wants::Look,
        Action::Read(_, _) => Wants::Read,
        Action::Get(_, _) => Wants::Get,
        Action::Write(_, _) => Wants::Write,
        Action::Clean(_, _) => Wants::Clean,
        _ => Wants::Nothing,
    }
}

#[tactic(auto, using(crate::proofs::WhatIsWanted::kind_by))]
fn wants_next(step: &FetchStep) -> Wants
    ensures { result ≡ wants_at step.now.place }
{
    kind_of(&step.next())
}

fn wants_of(work: &FetchWork) -> Wants
    ensures { result ≡ wants_in work.now }
{
    match work.stage {
        Stage::Fetching => wants_next(&work.step),
        Stage::Latching => Wants::Exclude,
        Stage::Invalidating => Wants::Invalidate,
        Stage::Installing => Wants::Install,
        Stage::Writing => Wants::WriteCopy,
        Stage::Cleaning => Wants::CleanCopy,
        Stage::Entering => Wants::RegisterAgain,
        Stage::Releasing | Stage::Freeing => Wants::Release,
        Stage::Held | Stage::Over => Wants::Nothing,
    }
}

/// Whether a fetch that asks for this, or that was given up, takes an answer.
fn takes_answer(work: &FetchWork, wanted: Wants) -> bool
    ensures { result ≡ takes_at work.now.stage work.now.step.place wanted }
{
    match work.stage {
        Stage::Fetching => wants_next(&work.step) == wanted,
        Stage::Releasing | Stage::Over => true,
        Stage::Held => false,
        _ => wants_of(work) == wanted,
    }
}

impl PoolNode {
    ghost use Rattle.coherent_pool.specs.Node.{state_at, node_at, step_at_page};
    ghost use Rattle.coherent_pool.specs.Keeping.{IsNode};
    ghost use Rattle.coherent_pool.specs.Planning.{takes_done, done_call};
    ghost use Rattle.coherent_pool.specs.Hearing.{takes_register, takes_image, takes_answer, is_refusal};

    /// What the page's fetch asks for next.
    pub fn wants(&self, page: PageId) -> Wants
        ensures { result ≡ wants_of (step_at_page self.now page) }
    {
        match self.works.get(page) {
            Some(work) => wants_of(work),
            None => Wants::Nothing,
        }
    }

    /// Whether an answer to a registration of the page would be taken.
    pub fn takes_registration(&self, page: PageId) -> bool
        requires { IsNode self.now }
        ensures { (a : ℕ) → result ≡ takes_register
            (node_at self.now page (ToldRegistered a)).step }
    {
        match self.works.get(page) {
            Some(work) => takes_answer(work, Wants::Register),
            None => false,
        }
    }

    /// Whether an image of the page would be taken from storage.
    pub fn takes_image(&self, page: PageId) -> bool
        requires { IsNode self.now }
        ensures { (image : Image) → result
            ≡ takes_image (node_at self.now page (ToldImage image)).step }
    {
        match self.works.get(page) {
            Some(work) => takes_answer(work, Wants::Get),
            None => false,
        }
    }

    /// Whether an answer to an invalidate of the page would be taken.
    pub fn takes_invalidate(&self, page: PageId) -> bool
        requires { IsNode self.now }
        ensures { (done : Bool) → result
            ≡ takes_done (node_at self.now page (done_call done)).step }
    {
        match self.works.get(page) {
            Some(work) => takes_answer(work, Wants::Invalidate),
            None => false,
        }
    }

    /// Whether the page's fetch awaits an answer, or was given up.
    pub fn takes_refusal(&self, page: PageId) -> bool
        requires { IsNode self.now }
        ensures { (call : Call) → is_refusal call ≡ true
            → result ≡ takes_answer (node_at self.now page call).step }
    {
        match self.works.get(page) {
            Some(work) => takes_answer(work, Wants::Register) || takes_answer(work, Wants::Get),
            None => false,
        }
    }
}
