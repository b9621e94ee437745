//! What a node learns of the answers to the calls of its fetches, and of tries that came to
//! nothing.
ghost use Rattle.std.specs.Prelude.{◌≡◌, ℕ, Bool, true, false, Option, Some, None};
ghost use Rattle.page_image.specs.Image.{Image};
ghost use Rattle.message_model.specs.declared.Got.TheVariants.{Image as Given};
ghost use Rattle.message_network.specs.declared.calls.Reply.TheVariants.{Registered, Got as GotReply};
ghost use Rattle.node_model.specs.Call.{Call, Call.ToldRegistered, Call.ToldImage};
ghost use Rattle.node_model.specs.Learning.{made_stale};
ghost use Rattle.fetch_steps.specs.declared.acts.Told.TheVariants.{Answer, Latch as Tried, NoAnswer};
ghost use Rattle.page_latches.specs.declared.latch.Latch.TheVariants.{Busy};
ghost use Rattle.fetch_steps.specs.Fetch.{number_of};

use crate::known::Known;
use crate::node::PoolNode;
use crate::works::Stage;
use fetch_steps::Told;
use message_model::Got;
use message_network::Reply;
use page_image::Page;
use page_latches::{Holders, Latch};
use rm_base::{Addr, Lsn, PageId};

/// The image in an answer of storage.
fn image_in(told: Told) -> Option<Page>
    ensures { (image : Image) → told ≡ Answer (GotReply (Given image)) → result ≡ Some image }
{
    match told {
        Told::Answer(Reply::Got(Got::Image(image))) => Some(image),
        _ => None,
    }
}

impl PoolNode {
    ghost use Rattle.coherent_pool.specs.Node.{state_at, node_at, is_writer, Changes, Others};
    ghost use Rattle.coherent_pool.specs.Keeping.{IsNode};
    ghost use Rattle.coherent_pool.specs.Hearing.{Accepts, SameNode, takes_register, takes_image, takes_answer, is_refusal};
    ghost use Rattle.coherent_pool.specs.Changing.{told_at, fetches, kept_page, owned, registered_at, given_image, got_at, settled, with_bit};

    pub(crate) fn fetches(&self, page: PageId) -> bool
        ensures { result ≡ fetches (state_at self.now page).work }
    {
        match self.works.get(page) {
            Some(work) => work.stage == Stage::Fetching,
            None => false,
        }
    }

    pub(crate) fn keep_page(&mut self, page: PageId)
        ensures { Changes page (kept_page (state_at self.old page)) self.old self.new }
    {
        let known = self.table.known(page);
        self.table.set(
            page,
            Known {
                kept: true,
                ..known
            },
        );
    }

    /// The RW uses its own copy at once.
    fn use_own(&mut self, page: PageId)
        ensures { Changes page (owned (is_writer self.old) (state_at self.old page)) self.old
            self.new }
    {
        if self.fetches(page) && self.writer && self.has_copy(page) {
            self.set_stage(page, Stage::Over);
        }
    }

    fn enter(&mut self, page: PageId, reply: Reply)
        ensures { Changes page (registered_at (is_writer self.old) reply (state_at self.old page))
            self.old self.new }
    {
        self.tell(page, &Told::Answer(reply));
        self.keep_page(page);
        self.use_own(page);
        self.settle(page);
    }

    /// The page is registered, at that address.
    pub fn registered(&mut self, page: PageId, addr: Addr, bit: bool, floor: Lsn)
        requires rules { IsNode self.old }
        requires waits { takes_register (node_at self.old page
            (ToldRegistered (number_of addr))).step ≡ true }
        ensures here { Accepts page (ToldRegistered (number_of addr)) self.old self.new }
        ensures others { Others page self.old self.new }
        ensures kept { IsNode self.new }
    {
        self.enter(page, Reply::Registered { addr, bit, floor });
    }

    /// The pool is full, or storage has not come to the floor.
    pub fn refused(&mut self, page: PageId)
        requires rules { IsNode self.old }
        requires waits { (call : Call) → is_refusal call ≡ true
            → takes_answer (node_at self.old page call).step ≡ true }
        ensures here { (call : Call) → is_refusal call ≡ true
            → Accepts page call self.old self.new }
        ensures others { Others page self.old self.new }
        ensures kept { IsNode self.new }
    {
        self.settle(page);
    }

    fn take_image(&mut self, page: PageId, image: Page)
        ensures { Changes page (given_image image (state_at self.old page)) self.old self.new }
    {
        if self.fetches(page) {
            let told = Told::Answer(Reply::Got(Got::Image(image)));
            self.tell(page, &told);
            let image = image_in(told);
            self.set_image(page, image);
        }
    }

    fn take(&mut self, page: PageId, image: Page)
        ensures { Changes page (got_at image (state_at self.old page)) self.old self.new }
    {
        self.take_image(page, image);
        self.settle(page);
    }

    /// Storage gave the page's image.
    pub fn got(&mut self, page: PageId, image: Page)
        requires rules { IsNode self.old }
        requires waits { takes_image (node_at self.old page (ToldImage image)).step ≡ true }
        ensures here { Accepts page (ToldImage image) self.old self.new }
        ensures others { Others page self.old self.new }
        ensures kept { IsNode self.new }
    {
        self.take(page, image);
    }

    /// The latch is held by others.
    pub fn busy(&mut self, page: PageId, holders: Holders)
        requires { IsNode self.old }
        ensures same { SameNode self.old self.new }
        ensures kept { IsNode self.new }
    {
        self.tell(page, &Told::Latch(Latch::Busy(holders)));
    }

    /// Nothing is known of the access: it was lost, or it was made and not seen.
    pub fn unheard(&mut self, page: PageId)
        requires { IsNode self.old }
        ensures same { SameNode self.old self.new }
        ensures kept { IsNode self.new }
    {
        self.tell(page, &Told::NoAnswer);
    }

    /// The home sets the local bit.
    pub fn make_stale(&mut self, page: PageId)
        requires { IsNode self.old }
        ensures here { (call : Call) → node_at self.new page call
            ≡ made_stale (node_at self.old page call) }
        ensures others { Others page self.old self.new }
        ensures kept { IsNode self.new }
    {
        self.set_bit(page, true);
    }
}
