ghost use Rattle.std.specs.Prelude.{◌≡◌, ℕ, true, None, Some, IfOk, OnOk, OnErr, IsSome, IsTrue, is_some};
ghost use Rattle.std.specs.Option.{option_copied, option_map_or};
ghost use Rattle.node_model.specs.Call.{Call};
ghost use Rattle.node_model.specs.Node.{blank};

use crate::known::{AddressTable, Known};
use crate::works::{FetchWork, Stage, Works};
use fetch_steps::Told;
use local_cache::{Cached, LocalCache};
use page_image::Page;
use rm_base::{Addr, Duplicate, PageId, WantOfMemory};
use std::alloc::Global;

/// What a node keeps of the pool's pages: its copies, what it knows of each page, and its fetches.
#[derive(Drop)]
pub struct PoolNode {
    pub(crate) writer: bool,
    pub(crate) up: bool,
    pub(crate) table: AddressTable,
    pub(crate) cache: LocalCache,
    pub(crate) works: Works,
}

impl PoolNode {
    ghost use Rattle.coherent_pool.specs.Node.{PageState, state_at, node_at, no_state, is_up, is_writer, Changes, Stays, HasRoom, is_busy, has_page, address_in, address_at, copy_in};
    ghost use Rattle.coherent_pool.specs.Changing.{with_known, with_bit, with_leaving, with_copy, with_work, copy_with, told_at, is_fresh, loaded_image, loaded, used};
    ghost use Rattle.coherent_pool.specs.Works.{staged_work, loaded_work};
    ghost use Rattle.coherent_pool.specs.Keeping.{IsNode};

    /// A node that knows of no page, the RW or not, with room for so many copies.
    pub fn new(alloc: Global, writer: bool, capacity: u16) -> Result<PoolNode, WantOfMemory>
        ensures state { IfOk result (λ node. (p : ℕ) (call : Call)
            → node_at node p call ≡ blank true call) }
        ensures kind { IfOk result (λ node. (is_up node ≡ true) × (is_writer node ≡ writer)) }
        ensures rules { IfOk result IsNode }
    {
        let node = PoolNode::empty(alloc, writer, capacity)?;
        Ok(node)
    }

    fn empty(alloc: Global, writer: bool, capacity: u16) -> Result<PoolNode, WantOfMemory>
        ensures state { IfOk result (λ node. (p : ℕ) → state_at node p ≡ no_state) }
        ensures kind { IfOk result (λ node. (is_up node ≡ true) × (is_writer node ≡ writer)) }
    {
        let table = AddressTable::new(alloc)?;
        let cache = LocalCache::new(alloc, capacity)?;
        Ok(PoolNode {
            writer,
            up: true,
            table,
            cache,
            works: Works::new(alloc),
        })
    }

    /// From now on this is kept of the page beside its copy.
    pub(crate) fn set_known(&mut self, page: PageId, known: Known)
        ensures { Changes page (with_known (state_at self.old page) known) self.old self.new }
    {
        self.table.set(page, known);
    }

    /// Sets the local bit of the page.
    pub(crate) fn set_bit(&mut self, page: PageId, bit: bool)
        ensures { Changes page (with_bit (state_at self.old page) bit) self.old self.new }
    {
        let known = self.table.known(page);
        self.table.set(page, Known { bit, ..known });
    }

    /// Says of the page whether it is to be unregistered.
    pub(crate) fn set_leaving(&mut self, page: PageId, leaves: bool)
        ensures { Changes page (with_leaving (state_at self.old page) leaves) self.old self.new }
    {
        self.table.set_leaving(page, leaves);
    }

    /// The fetch of the page is told of its act.
    pub(crate) fn tell(&mut self, page: PageId, told: &Told)
        ensures { Changes page (told_at told.now (state_at self.old page)) self.old self.new }
    {
        self.works.told(page, told);
    }

    /// The fetch of the page is at that stage.
    pub(crate) fn set_stage(&mut self, page: PageId, stage: Stage)
        ensures { Changes page (with_work (state_at self.old page)
            (staged_work stage (state_at self.old page).work)) self.old self.new }
    {
        self.works.set_stage(page, stage);
    }

    /// The page's fetch has that image, or none.
    pub(crate) fn set_image(&mut self, page: PageId, image: Option<Page>)
        ensures { Changes page (with_work (state_at self.old page)
            (loaded_work image (state_at self.old page).work)) self.old self.new }
    {
        let _image = self.works.set_image(page, image);
    }

    /// The image that storage gave to the page's fetch is dropped.
    pub(crate) fn drop_image(&mut self, page: PageId)
        ensures { Changes page (with_work (state_at self.old page)
            (loaded_work None (state_at self.old page).work)) self.old self.new }
    {
        self.set_image(page, None);
    }

    /// A copy of the page, which the page's fetch has, is the most recently used.
    #[tactic(auto, using(crate::proofs::Copies::here_put, crate::proofs::Copies::beside_put))]
    pub(crate) fn put_copy(&mut self, page: PageId, image: Page) -> Result<(), WantOfMemory>
        requires { HasRoom self.old page }
        ensures ok { OnOk result (Changes page
            (with_copy (state_at self.old page) (Some (copy_with image))) self.old self.new) }
        ensures err { OnErr result (self.new ≡ self.old) }
    {
        let copy = Cached {
            page: image,
            bit: false,
            pins: 1,
        };
        let _old = self.cache.put(page, copy)?;
        Ok(())
    }

    /// Whether the node has a copy of the page that it may use without a look.
    pub(crate) fn is_fresh(&self, page: PageId) -> bool
        ensures { result ≡ is_fresh (state_at self.now page).copy
            (state_at self.now page).known.bit }
    {
        self.cache.peek(page).is_some() && !self.table.known(page).bit
    }

    /// The copy of the page becomes the most recently used.
    #[tactic(auto, using(crate::proofs::Copies::used_copy))]
    pub(crate) fn touch(&mut self, page: PageId)
        ensures { Stays self.old self.new }
    {
        let _copy = self.cache.get(page);
    }

    /// Where the node has a copy of the page that it may use without a look, the fetch has it.
    pub(crate) fn use_copy(&mut self, page: PageId)
        ensures { Changes page (used (state_at self.old page)) self.old self.new }
    {
        if self.is_fresh(page) {
            self.touch(page);
            self.set_stage(page, Stage::Held);
        }
    }

    /// A copy of the image that storage gave to the page's fetch.
    pub(crate) fn given(&self, alloc: Global, page: PageId) -> Result<Option<Page>, WantOfMemory>
        ensures { IfOk result (λ image. image
            ≡ option_map_or (λ w. w.image) (state_at self.now page).work None) }
    {
        let Some(work) = self.works.get(page) else {
            return Ok(None);
        };
        let Some(image) = &work.image else {
            return Ok(None);
        };
        Ok(Some(image.copy(alloc)?))
    }

    /// The image is the node's copy of the page from now on, with local bit 0.
    fn keep(&mut self, page: PageId, image: Page) -> Result<(), WantOfMemory>
        requires { HasRoom self.old page }
        ensures ok { OnOk result (Changes page (loaded_image (Some image) (state_at self.old page))
            self.old self.new) }
        ensures err { OnErr result (self.new ≡ self.old) }
    {
        self.put_copy(page, image)?;
        self.drop_image(page);
        self.set_bit(page, false);
        Ok(())
    }

    /// The image that storage gave to the page's fetch, if it gave one, becomes the node's copy
    /// with local bit 0.
    pub(crate) fn load(&mut self, alloc: Global, page: PageId) -> Result<(), WantOfMemory>
        requires { HasRoom self.old page }
        ensures ok { OnOk result (Changes page (loaded (state_at self.old page)) self.old
            self.new) }
        ensures err { OnErr result (self.new ≡ self.old) }
    {
        match self.given(alloc, page)? {
            Some(image) => self.keep(page, image),
            None => Ok(()),
        }
    }

    /// Whether a fetch of the page is under way, or is finished and holds its latch.
    pub fn is_busy(&self, page: PageId) -> bool
        ensures { result ≡ is_busy self.now page }
    {
        self.works.get(page).is_some()
    }

    fn knows_address(&self, page: PageId) -> bool
        ensures { result ≡ is_some (address_in (state_at self.now page).known
            (state_at self.now page).work) }
    {
        match self.works.get(page) {
            Some(work) => work.step.address().is_some(),
            None => self.table.known(page).addr.is_some(),
        }
    }

    /// Whether the node is the RW.
    pub fn is_writer(&self) -> bool
        ensures { result ≡ is_writer self.now }
    {
        self.writer
    }

    /// Whether the node has a copy of the page.
    pub fn has_copy(&self, page: PageId) -> bool
        ensures { result ≡ is_some (state_at self.now page).copy }
    {
        self.cache.peek(page).is_some()
    }

    /// Whether the node has a copy of the page and knows its address.
    pub fn has_page(&self, page: PageId) -> bool
        ensures { result ≡ has_page self.now page }
    {
        self.has_copy(page) && self.knows_address(page)
    }

    /// Whether a copy of the page has room, or is there.
    pub fn has_room(&self, page: PageId) -> bool
        ensures { IsTrue result → HasRoom self.now page }
    {
        !self.cache.full() || self.has_copy(page)
    }

    /// The address of the page that the node knows.
    pub fn address(&self, page: PageId) -> Option<Addr>
        ensures { result ≡ address_at self.now page }
    {
        match self.works.get(page) {
            Some(work) => work.step.address(),
            None => self.table.known(page).addr,
        }
    }

    /// The node's copy of the page, whether it may be used or not.
    pub fn copy(&self, page: PageId) -> Option<&Page>
        ensures { option_copied result ≡ copy_in (state_at self.now page).copy }
    {
        let copy = self.cache.peek(page)?;
        Some(&copy.page)
    }
}
