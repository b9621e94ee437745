ghost use Rattle.std.specs.Prelude.{◌≡◌, if◌then◌else◌, true};
ghost use Rattle.mini_transactions.specs.Work.{turn, over};
ghost use Rattle.mini_transactions.specs.Hearing.{registered, answered, tried, granted, refused, served, written, lost, cleaned, installed, missed, after, act_to_write, quit};
ghost use Rattle.mini_transactions.specs.Fetching.{Fetches, Hears, is_over};
ghost use Rattle.mini_transactions.specs.Beginning.{stage_with_copy, first_stage, Begins};
ghost use Rattle.mini_transactions.specs.Progress.{is_joint, is_in, is_past_install, phase_at, HasPageImage, act_of_page};
ghost use Rattle.fetch_steps.specs.Fetch.{may_hold};
ghost use Rattle.page_image.specs.Image.{Image};

use crate::stage::{Phase, Stage};
use crate::telling::{address_in, is_done};
use fetch_steps::{Action, FetchStep, Told};
use message_network::Reply;
use page_latches::{Latch, Mode};
use rm_base::{Addr, Lsn, PageId, PageList};
use slab_node::SlabNo;

/// The turn of a page of which nothing is left to do.
const OVER: u32 = 32768;

/// What a plan did with one of its pages.
#[derive(Debug, Drop)]
pub struct PageWork {
    pub stage: Stage,
    /// The address that the node keeps, once the page is fetched.
    pub address: Option<Addr>,
    /// The plan holds the page's latch, or its last try was lost or unseen.
    pub claimed: bool,
    pub fetch: FetchStep,
}

impl Default for PageWork {
    fn default() -> PageWork {
        PageWork::new(PageId::default(), false, false, None)
    }
}

/// A page with a copy is latched next; without an address it is registered before.
fn with_copy(has_address: bool) -> Stage
    ensures { result ≡ stage_with_copy has_address }
{
    if has_address {
        Stage::Latching
    } else {
        Stage::Registering
    }
}

fn first_stage(made: bool, copy: bool, has_address: bool) -> Stage
    ensures { result ≡ first_stage made copy has_address }
{
    if made && !has_address {
        Stage::Making
    } else if made || copy {
        with_copy(has_address)
    } else {
        Stage::Fetching
    }
}

/// Nothing is left to do.
fn is_over(act: &Action) -> bool
    ensures { result ≡ is_over act.now }
{
    matches!(act, Action::Finished)
}

fn list_of(pages: &PageList) -> PageList
    ensures { result ≡ pages.now }
{
    let mut list = PageList::new();
    for page in pages.as_slice() {
        list.try_push(*page).unwrap();
    }
    list
}

impl PageWork {
    /// A page of which the node knows this address, or none, and perhaps has a copy.
    pub fn new(page: PageId, made: bool, copy: bool, address: Option<Addr>) -> PageWork
        ensures begins { Begins page made copy address result }
    {
        let stage = first_stage(made, copy, address.is_some());
        let fetch = FetchStep::new(page, true, address);
        PageWork {
            stage,
            address,
            claimed: false,
            fetch,
        }
    }

    pub fn page(&self) -> PageId
        ensures { result ≡ self.now.fetch.page }
    {
        self.fetch.page()
    }

    /// When the page's turn comes among the plan's pages.
    pub fn turn(&self) -> u32
        ensures { result ≡ turn self.now }
    {
        match self.stage {
            Stage::Making | Stage::Registering | Stage::Fetching => 0,
            Stage::Latching => 1,
            Stage::Invalidating => 2,
            Stage::Installing => 3,
            Stage::Writing => 4,
            Stage::Cleaning => 5,
            Stage::Releasing => 6,
            Stage::Quitting => self.release_turn(),
            Stage::Ended => OVER,
        }
    }

    /// Pages of a plan that was given up are released by their number.
    fn release_turn(&self) -> u32
        ensures { result ≡ (if self.now.claimed then self.now.fetch.page else over) }
    {
        if self.claimed {
            self.page().number()
        } else {
            OVER
        }
    }

    /// The page's next act in a plan of these pages, whose group has this LSN.
    #[tactic(auto, using(crate::proofs::Acts::act_of_fetch, crate::proofs::Acts::never_install))]
    pub fn act(&self, pages: &PageList, lsn: Lsn) -> Action
        ensures act { (v : Image) → HasPageImage self.now v
            → result ≡ act_of_page pages.now lsn v self.now }
        ensures installs { result ≡ Action.Install → self.now.stage ≡ Stage.Installing }
        ensures ends { is_past_install self.now.stage ≡ true → result ≡ Action.Finished
            → self.now.stage ≡ Stage.Ended }
    {
        match self.stage {
            Stage::Making | Stage::Registering => Action::Register(self.page()),
            Stage::Fetching => self.fetch.next(),
            Stage::Latching => Action::Latch(self.page(), Mode::X),
            Stage::Invalidating => Action::Invalidate(list_of(pages)),
            Stage::Installing => Action::Install,
            Stage::Writing => self.act_to_write(),
            Stage::Cleaning => Action::Clean(self.page(), lsn),
            Stage::Releasing => Action::Release(self.page()),
            Stage::Quitting => self.act_to_quit(),
            Stage::Ended => Action::Finished,
        }
    }

    fn act_to_write(&self) -> Action
        ensures { result ≡ act_to_write self.now }
    {
        match self.address {
            Some(address) => Action::Write(self.page(), address),
            None => Action::Register(self.page()),
        }
    }

    fn act_to_quit(&self) -> Action
        ensures { result ≡ (if self.now.claimed then Action.Release self.now.fetch.page else Action.Finished) }
    {
        if self.claimed {
            Action::Release(self.page())
        } else {
            Action::Finished
        }
    }

    /// Whether the next act is one of all pages of the plan.
    pub fn is_joint(&self) -> bool
        ensures { result ≡ is_joint self.now.stage }
    {
        matches!(self.stage, Stage::Invalidating | Stage::Installing)
    }

    /// Whether the page takes part in the next act, which is one of this page or of all pages.
    pub fn is_in(&self, page: PageId, joint: bool) -> bool
        ensures { result ≡ is_in page joint self.now }
    {
        if joint {
            self.is_joint()
        } else {
            !self.is_joint() && self.page() == page
        }
    }

    pub fn phase(&self) -> Phase
        ensures { result ≡ phase_at self.now.stage self.now.claimed }
    {
        match self.stage {
            Stage::Making | Stage::Registering | Stage::Fetching => Phase::Register,
            Stage::Latching => Phase::Latch,
            Stage::Invalidating => Phase::Invalidate,
            Stage::Installing => Phase::Install,
            Stage::Writing => Phase::Write,
            Stage::Cleaning => Phase::Clean,
            Stage::Releasing => Phase::Release,
            Stage::Quitting => self.phase_of_quitting(),
            Stage::Ended => Phase::Finished,
        }
    }

    fn phase_of_quitting(&self) -> Phase
        ensures { result ≡ (if self.now.claimed then Phase.Release else Phase.Finished) }
    {
        if self.claimed {
            Phase::Release
        } else {
            Phase::Finished
        }
    }

    pub fn is_past_install(&self) -> bool
        ensures { result ≡ is_past_install self.now.stage }
    {
        matches!(
            self.stage,
            Stage::Writing | Stage::Cleaning | Stage::Releasing | Stage::Ended
        )
    }

    /// The page is told of its act.
    pub fn told(&mut self, told: &Told)
        ensures { Hears self.old told.now self.new }
    {
        if self.stage == Stage::Fetching {
            self.told_of_fetch(told);
        } else {
            self.told_of_plan(told);
        }
    }

    fn told_of_fetch(&mut self, told: &Told)
        requires { self.old.stage ≡ Stage.Fetching }
        ensures { Fetches self.old told.now self.new }
    {
        self.fetch.told(told);
        let next = self.fetch.next();
        let address = self.fetch.address();
        if is_over(&next) && address.is_some() {
            self.address = address;
            self.stage = Stage::Latching;
        }
    }

    fn told_of_plan(&mut self, told: &Told)
        ensures { self.new ≡ after self.old told.now }
    {
        match told {
            Told::Answer(reply) => self.answered(reply),
            Told::Latch(latch) => self.tried(latch),
            Told::Seen(_) => {}
            Told::Slab(outcome) => self.served(*outcome),
            Told::Cleaned(there) => self.cleaned(*there),
            Told::Installed => self.installed(),
            Told::NoAnswer => self.missed(),
        }
    }

    fn answered(&mut self, reply: &Reply)
        ensures { self.new ≡ answered self.old reply.now }
    {
        if let Some(address) = address_in(reply) {
            self.registered(address);
        }
        if self.stage == Stage::Invalidating && is_done(reply) {
            self.stage = Stage::Installing;
        }
    }

    fn registered(&mut self, address: Addr)
        ensures { self.new ≡ registered self.old address }
    {
        self.address = Some(address);
        if matches!(self.stage, Stage::Making | Stage::Registering) {
            self.stage = Stage::Latching;
        }
    }

    fn tried(&mut self, latch: &Latch)
        ensures { self.new ≡ tried self.old latch.now }
    {
        match latch {
            Latch::Granted => self.granted(),
            Latch::Busy(_) => self.refused(),
        }
    }

    fn granted(&mut self)
        ensures { self.new ≡ granted self.old }
    {
        match self.stage {
            Stage::Latching => {
                self.stage = Stage::Invalidating;
                self.claimed = true;
            }
            Stage::Releasing => {
                self.stage = Stage::Ended;
                self.claimed = false;
            }
            Stage::Quitting => self.claimed = false,
            _ => {}
        }
    }

    fn refused(&mut self)
        ensures { self.new ≡ refused self.old }
    {
        if self.stage == Stage::Latching {
            self.claimed = false;
        }
    }

    fn served(&mut self, outcome: Result<(), SlabNo>)
        ensures { self.new ≡ served self.old outcome }
    {
        match outcome {
            Ok(()) => self.written(),
            Err(_) => self.lost(),
        }
    }

    fn written(&mut self)
        ensures { self.new ≡ written self.old }
    {
        if self.stage == Stage::Writing && self.address.is_some() {
            self.stage = Stage::Cleaning;
        }
    }

    /// The page's slot is lost.
    fn lost(&mut self)
        ensures { self.new ≡ lost self.old }
    {
        if matches!(self.stage, Stage::Writing | Stage::Cleaning) {
            self.stage = Stage::Writing;
            self.address = None;
        }
    }

    fn cleaned(&mut self, there: bool)
        ensures { self.new ≡ cleaned self.old there }
    {
        if self.stage != Stage::Cleaning {
            return;
        }
        if there {
            self.stage = Stage::Releasing;
        } else {
            self.lost();
        }
    }

    fn installed(&mut self)
        ensures { self.new ≡ installed self.old }
    {
        if self.stage == Stage::Installing {
            self.stage = Stage::Writing;
        }
    }

    /// Nothing is known of the access: a latch that was tried may be held.
    fn missed(&mut self)
        ensures { self.new ≡ missed self.old }
    {
        self.claimed = self.claimed || self.stage == Stage::Latching;
    }

    /// The plan is given up: a latch that may be held is to be released.
    pub fn give_up(&mut self)
        ensures { self.new ≡ quit self.old (may_hold self.old.fetch) }
    {
        if self.stage == Stage::Fetching {
            self.claimed = self.fetch.may_hold();
        }
        self.stage = Stage::Quitting;
    }
}
