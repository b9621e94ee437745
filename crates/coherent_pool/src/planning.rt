//! The pages of a plan at the RW, from the latch to the release.
ghost use Rattle.std.specs.Prelude.{◌≡◌, ◌<◌, ◌⊎◌, ℕ, Bool, true, false, None, OnOk, OnErr, is_some};
ghost use Rattle.node_model.specs.Call.{Call, Call.ToldRegistered};
ghost use Rattle.node_model.specs.Step.{Step, Step.PlanLatch, Step.PlanInstall, Step.PlanWrite, Step.PlanClean, Step.PlanRegister};
ghost use Rattle.node_model.specs.Learning.{stands, installs, after_write, after_clean, after_plan_down};
ghost use Rattle.fetch_steps.specs.Fetch.{number_of};
ghost use Rattle.fetch_steps.specs.Places.{begun};

use crate::node::PoolNode;
use crate::works::{FetchWork, Stage};
use fetch_steps::FetchStep;
use page_image::Page;
use rm_base::{Addr, PageId, WantOfMemory};

impl PoolNode {
    ghost use Rattle.coherent_pool.specs.Node.{state_at, node_at, step_at_page, is_writer, is_busy, Changes, Others};
    ghost use Rattle.coherent_pool.specs.Keeping.{IsNode};
    ghost use Rattle.coherent_pool.specs.Hearing.{Accepts};
    ghost use Rattle.coherent_pool.specs.Planning.{Becomes, Answered, done_call, takes_done};
    ghost use Rattle.coherent_pool.specs.Works.{stepped_work};
    ghost use Rattle.coherent_pool.specs.Changing.{with_work, with_copy, planned_at, pins_in, invalidates, done_at, invalidated_at, imaged, installed_at, written_at, cleaned_at, unslotted, entered_at};

    fn begin_page(&mut self, page: PageId) -> Result<(), WantOfMemory>
        requires free { (state_at self.old page).work ≡ None }
        requires few { pins_in (state_at self.old page).copy < 255 }
        ensures ok { OnOk result (Changes page
            (planned_at (is_writer self.old) page (state_at self.old page)) self.old self.new) }
        ensures err { OnErr result (self.new ≡ self.old) }
    {
        let known = self.table.known(page);
        let step = FetchStep::new(page, self.writer, known.addr);
        self.works.begin(FetchWork {
            step,
            stage: Stage::Latching,
            image: None,
        })?;
        self.pin(page);
        Ok(())
    }

    /// A plan of the RW begins with a page of which the node has a copy.
    pub fn plan(&mut self, page: PageId) -> Result<(), WantOfMemory>
        requires rules { IsNode self.old }
        requires writer { is_writer self.old ≡ true }
        requires free { is_busy self.old page ≡ false }
        requires copy { is_some (state_at self.old page).copy ≡ true }
        ensures here { OnOk result (Becomes page (λ N. stands N PlanLatch) self.old self.new) }
        ensures others { OnOk result (Others page self.old self.new) }
        ensures kept { OnOk result (IsNode self.new) }
        ensures err { OnErr result (self.new ≡ self.old) }
    {
        self.begin_page(page)?;
        Ok(())
    }

    fn invalidates(&self, page: PageId) -> bool
        ensures { result ≡ invalidates (state_at self.now page).work }
    {
        match self.works.get(page) {
            Some(work) => work.stage == Stage::Invalidating,
            None => false,
        }
    }

    fn note_done(&mut self, page: PageId, done: bool)
        ensures { Changes page (done_at done (state_at self.old page)) self.old self.new }
    {
        if self.invalidates(page) && done {
            self.set_stage(page, Stage::Installing);
        }
    }

    fn take_done(&mut self, page: PageId, done: bool)
        ensures { Changes page (invalidated_at done (state_at self.old page)) self.old self.new }
    {
        self.note_done(page, done);
        self.settle(page);
    }

    /// The home answered to the invalidate: that no other node has a fresh copy of the plan's pages,
    /// or that local bits are still to be set.
    pub fn invalidated(&mut self, page: PageId, done: bool)
        requires rules { IsNode self.old }
        requires waits { takes_done (node_at self.old page (done_call done)).step ≡ true }
        ensures here { Accepts page (done_call done) self.old self.new }
        ensures others { Others page self.old self.new }
        ensures kept { IsNode self.new }
    {
        self.take_done(page, done);
    }

    /// The image is that of the node's copy, where it has one.
    #[tactic(auto, using(crate::proofs::Images::here_imaged, crate::proofs::Images::beside_imaged))]
    fn set_copy(&mut self, page: PageId, image: Page)
        ensures { Changes page (with_copy (state_at self.old page)
            (imaged image (state_at self.old page).copy)) self.old self.new }
    {
        if let Some(copy) = self.cache.page_mut(page) {
            *copy = image;
        }
    }

    fn change(&mut self, page: PageId, image: Page)
        ensures { Changes page (installed_at image (state_at self.old page)) self.old self.new }
    {
        self.set_copy(page, image);
        self.set_bit(page, false);
        self.set_stage(page, Stage::Writing);
    }

    /// The plan's change is made in the copy, which is this image from now on.
    pub fn install(&mut self, page: PageId, image: Page)
        requires rules { IsNode self.old }
        requires done { step_at_page self.old page ≡ PlanInstall }
        ensures here { Becomes page (λ N. installs N image) self.old self.new }
        ensures others { Others page self.old self.new }
        ensures kept { IsNode self.new }
    {
        self.change(page, image);
    }

    /// The copy was written to the slot.
    pub fn wrote_copy(&mut self, page: PageId)
        requires rules { IsNode self.old }
        requires writes { step_at_page self.old page ≡ PlanWrite }
        ensures here { Becomes page (λ N. stands N (after_write N.step)) self.old self.new }
        ensures others { Others page self.old self.new }
        ensures kept { IsNode self.new }
    {
        self.set_stage(page, Stage::Cleaning);
    }

    /// The home was told that the slot holds the copy.
    pub fn cleaned_copy(&mut self, page: PageId)
        requires rules { IsNode self.old }
        requires cleans { step_at_page self.old page ≡ PlanClean }
        ensures here { (r n : ℕ) → Becomes page (λ N. stands N (after_clean r n N.step)) self.old
            self.new }
        ensures others { Others page self.old self.new }
        ensures kept { IsNode self.new }
    {
        self.set_stage(page, Stage::Freeing);
    }

    fn stand(&mut self, page: PageId, addr: Option<Addr>)
        ensures { Changes page (with_work (state_at self.old page)
            (stepped_work (begun page (is_writer self.old) addr) (state_at self.old page).work))
            self.old self.new }
    {
        let step = FetchStep::new(page, self.writer, addr);
        self.works.set_step(page, step);
    }

    fn lose_copy(&mut self, page: PageId)
        ensures { Changes page (unslotted page (is_writer self.old) (state_at self.old page))
            self.old self.new }
    {
        self.stand(page, None);
        self.set_stage(page, Stage::Entering);
    }

    /// The slot was lost before the copy stood in it and the home knew: the page is to be registered
    /// again.
    pub fn copy_slab_lost(&mut self, page: PageId)
        requires rules { IsNode self.old }
        requires meets { (step_at_page self.old page ≡ PlanWrite)
            ⊎ (step_at_page self.old page ≡ PlanClean) }
        ensures here { Becomes page after_plan_down self.old self.new }
        ensures others { Others page self.old self.new }
        ensures kept { IsNode self.new }
    {
        self.lose_copy(page);
    }

    fn enter_again(&mut self, page: PageId, addr: Addr)
        ensures { Changes page (entered_at page addr (is_writer self.old) (state_at self.old page))
            self.old self.new }
    {
        self.stand(page, Some(addr));
        self.keep_page(page);
        self.set_stage(page, Stage::Writing);
    }

    /// The page was registered again, and has that address.
    pub fn registered_again(&mut self, page: PageId, addr: Addr)
        requires rules { IsNode self.old }
        requires waits { step_at_page self.old page ≡ PlanRegister }
        ensures here { Answered page (ToldRegistered (number_of addr)) self.old self.new }
        ensures others { Others page self.old self.new }
        ensures kept { IsNode self.new }
    {
        self.enter_again(page, addr);
    }
}
