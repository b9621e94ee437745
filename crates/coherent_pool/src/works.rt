ghost use Rattle.std.specs.Prelude.{◌≡◌, [], None, Some, OnOk, OnErr};
ghost use Rattle.std.specs.Option.{option_copied};
ghost use Rattle.std.specs.List.{position};
ghost use Rattle.coherent_pool.specs.Works.{is_of, work_at, told_work, staged_work, stepped_work, loaded_work, SetsWork};

use fetch_steps::{FetchStep, Told};
use page_image::Page;
use rm_base::{PageId, WantOfMemory};
use std::alloc::Global;
use std::marker::Model;

/// How far a node's fetch of a page is, or its plan with the page.
#[derive(Clone, Copy, Debug, PartialEq, Eq)]
pub enum Stage {
    /// As the fetch says.
    Fetching,
    /// The node holds S, and has a copy that it uses as it is.
    Held,
    /// Finished or given up: a latch that may be held is to go.
    Releasing,
    /// Given up, and no latch is held.
    Over,
    /// The page is one of a plan, and is to be latched in X.
    Latching,
    /// X is held: the home is to answer that no other node has a fresh copy.
    Invalidating,
    /// It answered so: the plan's change is to be made in the copy.
    Installing,
    /// The copy is the latest image, and is to stand in the slot.
    Writing,
    /// The slot was written, and the home is to be told.
    Cleaning,
    /// The slot is lost: the page is to be registered again, and then written.
    Entering,
    /// The slot is clean: X is to be released.
    Freeing,
}

/// A fetch of a node: where it stands, and the image that storage gave it, until the image is the
/// node's copy.
#[derive(Debug, Drop)]
pub struct FetchWork {
    pub step: FetchStep,
    pub stage: Stage,
    pub image: Option<Page>,
}

/// The fetches of a node that are under way, or that are finished and hold a latch. There is at
/// most one of a page.
#[derive(Debug, Drop)]
pub struct Works {
    items: Vec<FetchWork>,
}

impl Model for Works {
    ghost use Rattle.std.specs.Prelude.{List};
    ghost use Rattle.coherent_pool.specs.declared.works.FetchWork.{FetchWork};
    ghost use Rattle.coherent_pool.specs.Works.{AreApart};

    ghost Value = { List FetchWork };

    ghost view = { λ works. works.items.items };

    ghost invariant = { λ works. AreApart works.items.items };
}

/// The place of the fetch of the page.
fn place_of(items: &[FetchWork], page: PageId) -> Option<usize>
    ensures { result ≡ position (is_of page) items.now }
{
    items.iter().position(|work| work.step.page() == page)
}

impl Works {
    /// No fetch is under way.
    pub fn new(alloc: Global) -> Works
        ensures { result ≡ [] }
    {
        Works {
            items: Vec::new(alloc),
        }
    }

    /// The fetch of the page.
    pub fn get(&self, page: PageId) -> Option<&FetchWork>
        ensures { option_copied result ≡ work_at self.now page }
    {
        self.items.iter().find(|work| work.step.page() == page)
    }

    /// A fetch begins.
    #[tactic(auto, using(crate::proofs::Fetches::apart_more, crate::proofs::Fetches::sets_more))]
    pub fn begin(&mut self, work: FetchWork) -> Result<(), WantOfMemory>
        requires { work_at self.old work.step.page ≡ None }
        ensures ok { OnOk result (SetsWork work.step.page (Some work) self.old self.new) }
        ensures err { OnErr result (self.new ≡ self.old) }
    {
        self.items.push(work)?;
        Ok(())
    }

    /// The fetch of the page is told of its act.
    pub fn told(&mut self, page: PageId, told: &Told)
        ensures { SetsWork page (told_work told.now (work_at self.old page)) self.old self.new }
    {
        if let Some(at) = place_of(self.items.as_slice(), page) {
            self.items[at].step.told(told);
        }
    }

    /// The fetch of the page is at that stage.
    pub fn set_stage(&mut self, page: PageId, stage: Stage)
        ensures { SetsWork page (staged_work stage (work_at self.old page)) self.old self.new }
    {
        if let Some(at) = place_of(self.items.as_slice(), page) {
            self.items[at].stage = stage;
        }
    }

    /// The fetch of the page stands there.
    pub fn set_step(&mut self, page: PageId, step: FetchStep)
        requires { step.page ≡ page }
        ensures { SetsWork page (stepped_work step (work_at self.old page)) self.old self.new }
    {
        if let Some(at) = place_of(self.items.as_slice(), page) {
            self.items[at].step = step;
        }
    }

    /// The fetch of the page has that image, or none. The one that it had comes back.
    pub fn set_image(&mut self, page: PageId, image: Option<Page>) -> Option<Page>
        ensures { SetsWork page (loaded_work image (work_at self.old page)) self.old self.new }
    {
        match place_of(self.items.as_slice(), page) {
            Some(at) => std::mem::replace(&mut self.items[at].image, image),
            None => image,
        }
    }

    /// The fetch of the page is over, and comes back.
    pub fn end(&mut self, page: PageId) -> Option<FetchWork>
        ensures { SetsWork page None self.old self.new }
    {
        let at = place_of(self.items.as_slice(), page)?;
        Some(self.items.remove(at))
    }

    /// No fetch is under way any more.
    pub fn clear(&mut self)
        ensures { self.new ≡ [] }
    {
        self.items.clear();
    }
}
