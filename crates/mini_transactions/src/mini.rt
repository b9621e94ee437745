ghost use Rattle.std.specs.Prelude.{◌≡◌, length};
ghost use Rattle.std.specs.Option.{option_copied};
ghost use Rattle.mini_transactions.specs.Work.{next_of};
ghost use Rattle.mini_transactions.specs.Together.{AllTake, AllQuit, Turns};
ghost use Rattle.mini_transactions.specs.Beginning.{AllBegin};

use crate::known::{Known, KnownPage};
use crate::page_work::PageWork;
use crate::stage::Phase;
use arrayvec::ArrayVec;
use fetch_steps::{Action, Told};
use redo_record::Plan;
use rm_base::{Lsn, PageId};
use std::marker::Model;

/// A mini-transaction: a plan that the read-write node carries out. Contracts see the plan, the LSN
/// that its group gets, and where it stands with each of its pages.
#[derive(Drop)]
pub struct Mini {
    plan: Plan,
    lsn: Lsn,
    works: ArrayVec<PageWork, 8>,
}

impl Model for Mini {
    ghost use Rattle.mini_transactions.specs.Progress.{Progress};
    ghost use Rattle.mini_transactions.specs.Together.{IsProgress};

    ghost Value = { Progress };

    ghost view = { λ mini. record { plan = mini.plan; lsn = mini.lsn; works = mini.works.items } };

    ghost invariant = { λ mini. IsProgress (record { plan = mini.plan; lsn = mini.lsn; works = mini.works.items }) };
}

/// Where the plan begins with each of its pages.
fn begun(plan: &Plan, known: &[KnownPage]) -> ArrayVec<PageWork, 8>
    requires { length known.now ≡ length plan.now.pages }
    ensures length { length result.items ≡ length plan.now.pages }
    ensures each { AllBegin plan.now known.now result.items }
{
    let pages = plan.pages.as_slice();
    let mut works = ArrayVec::new();
    for i in 0..pages.len() {
        let made = plan.made.as_slice().contains(&pages[i]);
        let page = known[i];
        works.push(PageWork::new(pages[i], made, page.copy, page.addr));
    }
    works
}

/// The page whose turn it is.
fn next_of(works: &[PageWork]) -> Option<&PageWork>
    ensures { option_copied result ≡ next_of works.now }
{
    let (first, rest) = works.split_first()?;
    let mut next = first;
    for work in rest {
        if work.turn() < next.turn() {
            next = work;
        }
    }
    Some(next)
}

/// The pages that take part in the act are told of it.
fn tell(works: &mut [PageWork], page: PageId, joint: bool, told: &Told)
    ensures length { length works.new ≡ length works.old }
    ensures each { AllTake page joint told.now works.old works.new }
{
    for work in works.iter_mut() {
        if work.is_in(page, joint) {
            work.told(told);
        }
    }
}

/// The pages that take part in the act of the page whose turn it is are told of it.
fn tell_next(works: &mut [PageWork], told: &Told)
    ensures { Turns told.now works.old works.new }
{
    let (page, joint) = match next_of(works) {
        Some(next) => (next.page(), next.is_joint()),
        None => return,
    };
    tell(works, page, joint, told);
}

/// What is left of each page is the release of a latch that may be held.
fn quit(works: &mut [PageWork])
    ensures length { length works.new ≡ length works.old }
    ensures each { AllQuit works.old works.new }
{
    for work in works.iter_mut() {
        work.give_up();
    }
}

impl Mini {
    ghost use Rattle.std.specs.Prelude.{true, false};
    ghost use Rattle.page_image.specs.Image.{Image};
    ghost use Rattle.mini_transactions.specs.Progress.{next_act, NextHasImage, phase_of, is_installed};
    ghost use Rattle.mini_transactions.specs.Told.{Tells, GivesUp, AllInstall, AllEnded};

    /// A plan of the read-write node, which knows this of the plan's pages.
    pub fn new(plan: Plan, known: Known) -> Mini
        requires { length known.pages ≡ length plan.pages }
        ensures plan { (result.plan ≡ plan) × (result.lsn ≡ known.lsn) }
        ensures begins { AllBegin plan known.pages result.works }
        ensures length { length result.works ≡ length plan.pages }
    {
        let works = begun(&plan, known.pages.as_slice());
        Mini {
            plan,
            lsn: known.lsn,
            works,
        }
    }

    /// The plan.
    pub fn plan(&self) -> &Plan
        ensures { result.now ≡ self.now.plan }
    {
        &self.plan
    }

    /// The act that is next. While a call of the plan is unanswered, its answer comes first.
    pub fn next(&self) -> Action
        ensures act { (v : Image) → NextHasImage self.now v → result ≡ next_act self.now v }

        // The group is installed only where the law of pages has each page of the plan at the install:
        // after X on the page, and after the home answered that no other node has a fresh copy.
        ensures installs { result ≡ Action.Install → AllInstall self.now }

        // A plan whose group is installed ends with nothing left to do of any page.
        ensures ends { is_installed self.now ≡ true → result ≡ Action.Finished → AllEnded self.now }
    {
        match next_of(self.works.as_slice()) {
            Some(work) => work.act(&self.plan.pages, self.lsn),
            None => Action::Finished,
        }
    }

    /// The phase in which the plan is.
    pub fn phase(&self) -> Phase
        ensures { result ≡ phase_of self.now }
    {
        match next_of(self.works.as_slice()) {
            Some(work) => work.phase(),
            None => Phase::Finished,
        }
    }

    /// The plan is told of its act.
    pub fn told(&mut self, told: &Told)
        ensures { Tells self.old told.now self.new }
    {
        tell_next(self.works.as_mut_slice(), told);
    }

    /// Whether the plan's group is installed, so that the plan is carried to its end.
    pub fn is_installed(&self) -> bool
        ensures { result ≡ is_installed self.now }
    {
        match next_of(self.works.as_slice()) {
            Some(work) => work.is_past_install(),
            None => false,
        }
    }

    /// The plan is given up: what is left are the releases of the latches that it may hold, by the
    /// pages' numbers, after the answer to a call that is unanswered.
    pub fn give_up(&mut self)
        requires { is_installed self.old ≡ false }
        ensures { GivesUp self.old self.new }
    {
        quit(self.works.as_mut_slice());
    }
}
