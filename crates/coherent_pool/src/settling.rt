//! How a node's fetch of a page goes on after an access, and how it ends.
ghost use Rattle.std.specs.Prelude.{◌≡◌, Some, None};

use crate::known::Known;
use crate::node::PoolNode;
use crate::standing;
use crate::works::Stage;
use fetch_steps::Told;
use page_latches::Latch;
use rm_base::PageId;

impl PoolNode {
    ghost use Rattle.coherent_pool.specs.Node.{state_at, is_writer, Changes};
    ghost use Rattle.coherent_pool.specs.Changing.{reads, registers, releases, latches, has_ended, noted, bit_read, forgot, let_go, ended, settled, with_copy, freed, addressed, pins_in};

    pub(crate) fn reads(&self, page: PageId) -> bool
        ensures { result ≡ reads (state_at self.now page).work }
    {
        match self.works.get(page) {
            Some(work) => standing::reads(&work.step),
            None => false,
        }
    }

    fn registers(&self, page: PageId) -> bool
        ensures { result ≡ registers (state_at self.now page).work }
    {
        match self.works.get(page) {
            Some(work) => standing::registers(&work.step),
            None => false,
        }
    }

    fn releases(&self, page: PageId) -> bool
        ensures { result ≡ releases (state_at self.now page).work }
    {
        match self.works.get(page) {
            Some(work) => matches!(work.stage, Stage::Releasing | Stage::Freeing),
            None => false,
        }
    }

    pub(crate) fn latches(&self, page: PageId) -> bool
        ensures { result ≡ latches (state_at self.now page).work }
    {
        match self.works.get(page) {
            Some(work) => work.stage == Stage::Latching,
            None => false,
        }
    }

    fn has_ended(&self, page: PageId) -> bool
        ensures { result ≡ has_ended (state_at self.now page).work }
    {
        match self.works.get(page) {
            Some(work) => match work.stage {
                Stage::Fetching => standing::is_done(&work.step),
                Stage::Over => true,
                _ => false,
            },
            None => false,
        }
    }

    /// A look under S that shows bit 0 sets the local bit to 0.
    pub(crate) fn note_look(&mut self, page: PageId)
        ensures { Changes page (noted (is_writer self.old) (state_at self.old page)) self.old
            self.new }
    {
        if !self.writer && self.reads(page) {
            self.set_bit(page, false);
        }
    }

    /// A read by the RW sets the local bit to 0.
    pub(crate) fn note_read(&mut self, page: PageId)
        ensures { Changes page (bit_read (is_writer self.old) (state_at self.old page)) self.old
            self.new }
    {
        if self.writer {
            self.set_bit(page, false);
        }
    }

    /// A page that is to be registered again has local bit 1.
    fn forget(&mut self, page: PageId)
        ensures { Changes page (forgot (state_at self.old page)) self.old self.new }
    {
        if self.registers(page) {
            self.set_bit(page, true);
        }
    }

    /// The page's latch was released.
    pub(crate) fn let_go(&mut self, page: PageId)
        ensures { Changes page (let_go (state_at self.old page)) self.old self.new }
    {
        if self.releases(page) {
            self.set_stage(page, Stage::Over);
        } else {
            self.tell(page, &Told::Latch(Latch::Granted));
            self.forget(page);
        }
    }

    /// The address that the page's fetch knows is kept.
    fn keep_address(&mut self, page: PageId)
        ensures { Changes page (addressed (state_at self.old page)) self.old self.new }
    {
        if let Some(work) = self.works.get(page) {
            let addr = work.step.address();
            let known = self.table.known(page);
            self.table.set(page, Known { addr, ..known });
        }
    }

    fn pins(&self, page: PageId) -> u8
        ensures { result ≡ pins_in (state_at self.now page).copy }
    {
        match self.cache.peek(page) {
            Some(copy) => copy.pins,
            None => 0,
        }
    }

    /// The page's fetch has the copy no longer.
    #[tactic(auto, using(crate::proofs::Copies::here_unpinned, crate::proofs::Copies::beside_unpinned, crate::proofs::Copies::free_already, crate::proofs::Copies::has_pins))]
    fn unpin(&mut self, page: PageId)
        ensures { Changes page (with_copy (state_at self.old page)
            (freed (state_at self.old page).copy)) self.old self.new }
    {
        if self.pins(page) > 0 {
            self.cache.unpin(page);
        }
    }

    fn end(&mut self, page: PageId)
        ensures { Changes page (ended (state_at self.old page)) self.old self.new }
    {
        self.keep_address(page);
        self.unpin(page);
        let _work = self.works.end(page);
    }

    /// A fetch of which nothing is left is over: the node keeps what it knows of the page.
    pub(crate) fn settle(&mut self, page: PageId)
        ensures { Changes page (settled (state_at self.old page)) self.old self.new }
    {
        if self.has_ended(page) {
            self.end(page);
        }
    }
}
