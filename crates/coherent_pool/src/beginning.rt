//! A fetch of a node begins, is given up, or is finished.
ghost use Rattle.std.specs.Prelude.{◌≡◌, ◌<◌, ℕ, Bool, true, false, None, OnOk, OnErr};
ghost use Rattle.node_model.specs.Call.{Call, is_of_work};
ghost use Rattle.node_model.specs.Step.{Step, Step.Held, Step.ReleaseEnd, may_give_up};
ghost use Rattle.node_model.specs.Learning.{stands};

use crate::node::PoolNode;
use crate::works::{FetchWork, Stage};
use fetch_steps::FetchStep;
use rm_base::{PageId, WantOfMemory};

impl PoolNode {
    ghost use Rattle.coherent_pool.specs.Node.{state_at, node_at, step_at_page, is_writer, is_busy, has_page, holds_in, Changes, Others};
    ghost use Rattle.coherent_pool.specs.Keeping.{IsNode};
    ghost use Rattle.coherent_pool.specs.Hearing.{Begins, GivesUp};
    ghost use Rattle.coherent_pool.specs.Changing.{with_copy, with_work, wanted, had, pins_in, begun_at, spoilt, quit_stage, quit_at, gave_up};

    /// A page that is wanted again is not to be unregistered, and has local bit 1.
    fn want(&mut self, page: PageId)
        ensures { Changes page (wanted (state_at self.old page)) self.old self.new }
    {
        if self.table.is_leaving(page) {
            self.set_bit(page, true);
            self.set_leaving(page, false);
        }
    }

    /// One fetch more has the copy, if there is one.
    pub(crate) fn pin(&mut self, page: PageId)
        requires { pins_in (state_at self.old page).copy < 255 }
        ensures { Changes page (with_copy (state_at self.old page)
            (had (state_at self.old page).copy)) self.old self.new }
    {
        if self.has_copy(page) {
            self.cache.pin(page);
        }
    }

    fn begin(&mut self, page: PageId) -> Result<(), WantOfMemory>
        requires free { (state_at self.old page).work ≡ None }
        requires few { pins_in (state_at self.old page).copy < 255 }
        ensures ok { OnOk result (Changes page
            (begun_at (is_writer self.old) page (state_at self.old page)) self.old self.new) }
        ensures err { OnErr result (self.new ≡ self.old) }
    {
        let known = self.table.known(page);
        let step = FetchStep::new(page, self.writer, known.addr);
        self.works.begin(FetchWork {
            step,
            stage: Stage::Fetching,
            image: None,
        })?;
        self.want(page);
        self.pin(page);
        Ok(())
    }

    /// A fetch of the page begins. The RW fetches what it has no copy or no address of.
    pub fn fetch(&mut self, page: PageId) -> Result<(), WantOfMemory>
        requires rules { IsNode self.old }
        requires free { is_busy self.old page ≡ false }
        requires lacks { is_writer self.old ≡ true → has_page self.old page ≡ false }
        ensures here { OnOk result (Begins page self.old self.new) }
        ensures others { OnOk result (Others page self.old self.new) }
        ensures kept { OnOk result (IsNode self.new) }
        ensures err { OnErr result (self.new ≡ self.old) }
    {
        self.begin(page)?;
        Ok(())
    }

    fn may_hold(&self, page: PageId) -> bool
        ensures { result ≡ holds_in (state_at self.now page).work }
    {
        match self.works.get(page) {
            Some(work) => match work.stage {
                Stage::Fetching => work.step.may_hold(),
                Stage::Over => false,
                _ => true,
            },
            None => false,
        }
    }

    /// A page that was looked at under S and not yet read has local bit 1.
    fn spoil(&mut self, page: PageId)
        ensures { Changes page (spoilt (is_writer self.old) (state_at self.old page)) self.old
            self.new }
    {
        if self.fetches(page) && self.reads(page) && !self.writer {
            self.set_bit(page, true);
        }
    }

    fn stage_to_quit(&self, page: PageId) -> Stage
        ensures { result ≡ quit_stage (state_at self.now page).work }
    {
        if self.may_hold(page) {
            Stage::Releasing
        } else {
            Stage::Over
        }
    }

    fn quit(&mut self, page: PageId)
        ensures { Changes page (quit_at (is_writer self.old) (state_at self.old page)) self.old
            self.new }
    {
        self.spoil(page);
        let stage = self.stage_to_quit(page);
        self.drop_image(page);
        self.set_stage(page, stage);
    }

    fn leave(&mut self, page: PageId, waits: bool)
        ensures { Changes page (gave_up waits (is_writer self.old) (state_at self.old page))
            self.old self.new }
    {
        self.quit(page);
        if !waits {
            self.settle(page);
        }
    }

    /// The fetch of the page is given up: the answer to a call that is unanswered comes first, then
    /// the release of a latch that may be held.
    pub fn give_up(&mut self, page: PageId, waits: bool)
        requires rules { IsNode self.old }
        requires under_way { may_give_up (step_at_page self.old page) ≡ true }
        ensures here { GivesUp page waits self.old self.new }
        ensures others { Others page self.old self.new }
        ensures kept { IsNode self.new }
    {
        self.leave(page, waits);
    }

    /// The node lets go of a page that it fetched: its latch is to be released.
    pub fn finish(&mut self, page: PageId)
        requires rules { IsNode self.old }
        requires held { step_at_page self.old page ≡ Held }
        ensures here { (call : Call) → is_of_work call ≡ false
            → node_at self.new page call ≡ stands (node_at self.old page call) ReleaseEnd }
        ensures others { Others page self.old self.new }
        ensures kept { IsNode self.new }
    {
        self.set_stage(page, Stage::Releasing);
    }
}
