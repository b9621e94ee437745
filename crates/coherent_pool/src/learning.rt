//! What a node learns of the accesses of its fetches.
ghost use Rattle.std.specs.Prelude.{◌≡◌, ℕ, Bool, true, false, Some, Ok, Err, OnOk, OnErr};
ghost use Rattle.page_image.specs.Image.{Image};
ghost use Rattle.node_model.specs.Step.{wants_s, wants_x, wants_release};
ghost use Rattle.fetch_steps.specs.declared.acts.Told.TheVariants.{Latch as Tried, Seen as Looked, Slab, Cleaned};
ghost use Rattle.page_latches.specs.declared.latch.Latch.TheVariants.{Granted};

use crate::node::PoolNode;
use crate::works::Stage;
use fetch_steps::Told;
use message_network::Seen;
use page_image::Page;
use page_latches::Latch;
use rm_base::{PageId, WantOfMemory};
use slab_node::SlabNo;
use std::alloc::Global;

impl PoolNode {
    ghost use Rattle.coherent_pool.specs.Node.{state_at, is_writer, Changes, Others, HasRoom, step_at_page};
    ghost use Rattle.coherent_pool.specs.Keeping.{IsNode};
    ghost use Rattle.coherent_pool.specs.Hearing.{Hears, looks, reads_slot, writes_slot, cleans_slot, meets_slab};
    ghost use Rattle.coherent_pool.specs.Changing.{shared, excluded, seen_at, read_at, lost_at, told_at, released_at};

    fn share(&mut self, alloc: Global, page: PageId) -> Result<(), WantOfMemory>
        requires { HasRoom self.old page }
        ensures ok { OnOk result (Changes page (shared (state_at self.old page)) self.old
            self.new) }
        ensures err { OnErr result (self.new ≡ self.old) }
    {
        self.load(alloc, page)?;
        self.tell(page, &Told::Latch(Latch::Granted));
        self.use_copy(page);
        Ok(())
    }

    /// S was granted. A copy with local bit 0 is used as it is, and an image that storage gave
    /// becomes the copy.
    pub fn granted_s(&mut self, alloc: Global, page: PageId) -> Result<(), WantOfMemory>
        requires rules { IsNode self.old }
        requires room { HasRoom self.old page }
        requires tries { wants_s (step_at_page self.old page) ≡ true }
        ensures here { OnOk result ((v : Image) → Hears page (Tried Granted) v self.old self.new) }
        ensures others { OnOk result (Others page self.old self.new) }
        ensures kept { OnOk result (IsNode self.new) }
        ensures err { OnErr result (self.new ≡ self.old) }
    {
        self.share(alloc, page)?;
        Ok(())
    }

    /// A page of a plan is to be invalidated, once X was granted.
    fn exclude(&mut self, page: PageId)
        ensures { Changes page (excluded (state_at self.old page)) self.old self.new }
    {
        if self.latches(page) {
            self.set_stage(page, Stage::Invalidating);
        } else {
            self.tell(page, &Told::Latch(Latch::Granted));
        }
    }

    /// X was granted.
    pub fn granted_x(&mut self, page: PageId)
        requires rules { IsNode self.old }
        requires tries { wants_x (step_at_page self.old page) ≡ true }
        ensures here { (v : Image) → Hears page (Tried Granted) v self.old self.new }
        ensures others { Others page self.old self.new }
        ensures kept { IsNode self.new }
    {
        self.exclude(page);
    }

    /// This was seen in the home's entry.
    pub fn looked(&mut self, page: PageId, seen: Option<Seen>)
        requires rules { IsNode self.old }
        requires looks { looks (step_at_page self.old page) ≡ true }
        ensures here { (v : Image) → Hears page (Looked seen) v self.old self.new }
        ensures others { Others page self.old self.new }
        ensures kept { IsNode self.new }
    {
        self.see(page, seen);
    }

    fn see(&mut self, page: PageId, seen: Option<Seen>)
        ensures { Changes page (seen_at (is_writer self.old) seen (state_at self.old page)) self.old
            self.new }
    {
        self.tell(page, &Told::Seen(seen));
        self.note_look(page);
    }

    fn read_slot(&mut self, page: PageId, image: Page) -> Result<(), WantOfMemory>
        requires { HasRoom self.old page }
        ensures ok { OnOk result (Changes page
            (read_at (is_writer self.old) image (state_at self.old page)) self.old self.new) }
        ensures err { OnErr result (self.new ≡ self.old) }
    {
        self.put_copy(page, image)?;
        self.note_read(page);
        self.tell(page, &Told::Slab(Ok(())));
        self.settle(page);
        Ok(())
    }

    /// The slot was read, and holds the image.
    pub fn read(&mut self, page: PageId, image: Page) -> Result<(), WantOfMemory>
        requires rules { IsNode self.old }
        requires room { HasRoom self.old page }
        requires reads { reads_slot (step_at_page self.old page) ≡ true }
        ensures here { OnOk result (Hears page (Slab (Ok tt)) image self.old self.new) }
        ensures others { OnOk result (Others page self.old self.new) }
        ensures kept { OnOk result (IsNode self.new) }
        ensures err { OnErr result (self.new ≡ self.old) }
    {
        self.read_slot(page, image)?;
        Ok(())
    }

    /// The slot was written.
    pub fn wrote(&mut self, page: PageId)
        requires rules { IsNode self.old }
        requires writes { writes_slot (step_at_page self.old page) ≡ true }
        ensures here { (v : Image) → Hears page (Slab (Ok tt)) v self.old self.new }
        ensures others { Others page self.old self.new }
        ensures kept { IsNode self.new }
    {
        self.tell(page, &Told::Slab(Ok(())));
    }

    /// The home was told that the slot is clean.
    pub fn cleaned(&mut self, page: PageId)
        requires rules { IsNode self.old }
        requires cleans { cleans_slot (step_at_page self.old page) ≡ true }
        ensures here { (v : Image) → Hears page (Cleaned true) v self.old self.new }
        ensures others { Others page self.old self.new }
        ensures kept { IsNode self.new }
    {
        self.tell(page, &Told::Cleaned(true));
    }

    fn lose(&mut self, page: PageId, told: &Told)
        ensures { Changes page (lost_at told.now (state_at self.old page)) self.old self.new }
    {
        self.tell(page, told);
        self.drop_image(page);
        self.set_bit(page, true);
    }

    /// The slab is down, or has another incarnation, or the page has another address by now.
    pub fn slab_lost(&mut self, page: PageId, why: SlabNo)
        requires rules { IsNode self.old }
        requires meets { meets_slab (step_at_page self.old page) ≡ true }
        ensures here { (v : Image) → Hears page (Slab (Err why)) v self.old self.new }
        ensures others { Others page self.old self.new }
        ensures kept { IsNode self.new }
    {
        self.lose(page, &Told::Slab(Err(why)));
    }

    /// The home has no entry of the page that was to be clean.
    pub fn entry_lost(&mut self, page: PageId)
        requires rules { IsNode self.old }
        requires cleans { cleans_slot (step_at_page self.old page) ≡ true }
        ensures here { (v : Image) → Hears page (Cleaned false) v self.old self.new }
        ensures others { Others page self.old self.new }
        ensures kept { IsNode self.new }
    {
        self.lose(page, &Told::Cleaned(false));
    }

    fn release(&mut self, alloc: Global, page: PageId) -> Result<(), WantOfMemory>
        requires { HasRoom self.old page }
        ensures ok { OnOk result (Changes page (released_at (state_at self.old page)) self.old
            self.new) }
        ensures err { OnErr result (self.new ≡ self.old) }
    {
        self.load(alloc, page)?;
        self.let_go(page);
        self.settle(page);
        Ok(())
    }

    /// The latch was released.
    pub fn released(&mut self, alloc: Global, page: PageId) -> Result<(), WantOfMemory>
        requires rules { IsNode self.old }
        requires room { HasRoom self.old page }
        requires releases { wants_release (step_at_page self.old page) ≡ true }
        ensures here { OnOk result ((v : Image) → Hears page (Tried Granted) v self.old self.new) }
        ensures others { OnOk result (Others page self.old self.new) }
        ensures kept { OnOk result (IsNode self.new) }
        ensures err { OnErr result (self.new ≡ self.old) }
    {
        self.release(alloc, page)?;
        Ok(())
    }
}
