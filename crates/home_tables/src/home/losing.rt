ghost use Rattle.std.specs.Prelude.{◌≡◌, ◌<◌, ℕ, true, Some, length, slice_get};
ghost use Rattle.home_model.specs.Entry.{stays, swept};
ghost use Rattle.home_tables.specs.Losing.{kept_from, lost_on, swept_to};

use super::{Home, mark_due, mark_idle};
use rm_base::{Lsn, NodeId, PageId, SlabId};

impl Home {
    ghost use Rattle.home_tables.specs.Home.{HomeState, entry_at};
    ghost use Rattle.home_tables.specs.Losing.{Becomes, AllBecome};
    ghost use Rattle.home_tables.specs.Places.{pages_in, KeepsBefore};

    /// The page of the entry at that place.
    fn page_at(&self, place: usize) -> PageId
        requires { place < length (pages_in self.now) }
        ensures { slice_get (pages_in self.now) place ≡ Some result }
    {
        let (page, _) = self.entries.get_index(place).unwrap();
        *page
    }

    fn kick_at(&mut self, page: PageId, node: NodeId)
        ensures entry { Becomes self.old self.new page (kept_from node) }
        ensures pages { pages_in self.new ≡ pages_in self.old }
    {
        if let Some(entry) = self.entries.get_mut(&page) {
            entry.kick(node);
            let is_idle = entry.is_idle();
            let addr = entry.addr;
            mark_idle(&mut self.idle, page, addr, is_idle);
            mark_due(&mut self.due, page, &entry.due);
        }
    }

    /// The node has neither a reference nor a due pair nor a latch of any page.
    pub fn release_all(&mut self, node: NodeId)
        ensures { AllBecome self.old self.new (kept_from node) }
    {
        let count = self.entries.len();
        for place in 0..count {
            let page = self.page_at(place);
            self.kick_at(page, node);
        }
    }

    fn lose_at(&mut self, page: PageId, slab: SlabId)
        ensures entry { Becomes self.old self.new page (lost_on slab) }
        ensures pages { pages_in self.new ≡ pages_in self.old }
    {
        if let Some(entry) = self.entries.get_mut(&page) {
            let addr = entry.addr;
            entry.lose(slab);
            let is_offered = entry.is_offered();
            mark_idle(&mut self.idle, page, addr, is_offered);
        }
    }

    /// The slab is lost, and each page loses the slot that it has there.
    pub fn drop_slab(&mut self, slab: SlabId)
        ensures { AllBecome self.old self.new (lost_on slab) }
    {
        let count = self.entries.len();
        for place in 0..count {
            let page = self.page_at(place);
            self.lose_at(page, slab);
        }
    }

    fn settle_at(&mut self, page: PageId, tail: Lsn)
        requires { stays (entry_at self.old page) tail ≡ true }
        ensures entry { Becomes self.old self.new page (swept_to tail) }
        ensures pages { pages_in self.new ≡ pages_in self.old }
    {
        if let Some(entry) = self.entries.get_mut(&page) {
            entry.settle(tail);
            let is_idle = entry.is_idle();
            let addr = entry.addr;
            mark_idle(&mut self.idle, page, addr, is_idle);
            mark_due(&mut self.due, page, &entry.due);
        }
    }

    fn sweep_at(&mut self, page: PageId, tail: Lsn)
        ensures entry { Becomes self.old self.new page (swept_to tail) }
        ensures pages { KeepsBefore self.old self.new page }
    {
        let stays = match self.entries.get(&page) {
            Some(entry) => entry.stays(tail),
            None => return,
        };
        if stays {
            self.settle_at(page, tail);
        } else {
            self.remove(page);
        }
    }

    /// Sweeps the entries at the tail: each goes, or stays with no node and with the tail as its floor.
    /// The tail is the floor of pages that have none.
    pub fn sweep(&mut self, tail: Lsn)
        ensures entries { entry_at self.new ≡ (λ p. swept (entry_at self.old p) tail) }
        ensures watermark { self.new.watermark ≡ tail }
    {
        let count = self.entries.len();
        for place in (0..count).rev() {
            let page = self.page_at(place);
            self.sweep_at(page, tail);
        }
        self.watermark = tail;
    }
}
