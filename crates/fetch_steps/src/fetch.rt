ghost use Rattle.std.specs.Prelude.{◌≡◌};
ghost use Rattle.fetch_steps.specs.Telling.{shown};

use crate::acts::{Action, Told};
use crate::place::Place;
use message_model::Got;
use message_network::{Reply, Seen};
use page_latches::{Latch, Mode};
use rm_base::{Addr, Lsn, PageId};
use slab_node::SlabNo;
use std::marker::Model;

/// A fetch of a page by a node, as the act that is next. Contracts see where it stands.
#[derive(Debug, Drop)]
pub struct FetchStep {
    page: PageId,
    writer: bool,
    address: Option<Addr>,
    place: Place,
    /// The floor that storage is asked for; once it gave an image, the image's LSN.
    lsn: Lsn,
    /// The last try of a latch was lost or unseen.
    unheard: bool,
}

impl Model for FetchStep {
    ghost use Rattle.fetch_steps.specs.Fetch.{Fetch, IsPlaced};

    ghost Value = { Fetch };

    ghost view = { λ f. record { page = f.page; writer = f.writer; address = f.address; place = f.place; lsn = f.lsn; unheard = f.unheard } };

    ghost invariant = { λ f. IsPlaced f.place f.address };
}

impl FetchStep {
    ghost use Rattle.std.specs.Prelude.{◌≡◌, ◌<◌, ◌≤◌, ◌+◌, ℕ, Bool, true, false, Some, None, nat_eq, IsSome};
    ghost use Rattle.page_image.specs.Image.{Image};
    ghost use Rattle.page_latches.specs.declared.latch.Holders.{Holders};
    ghost use Rattle.node_model.specs.Call.{Call, Call.Quiet, is_of_work};
    ghost use Rattle.node_model.specs.Node.{Node};
    ghost use Rattle.node_model.specs.Learning.{begin_step, gives_up, answer_step};
    ghost use Rattle.fetch_steps.specs.Fetch.{Fetch, step_of, address_of, may_hold, HasImage, IsPlaced, holds_at, tries};
    ghost use Rattle.fetch_steps.specs.Acts.{act_of};
    ghost use Rattle.fetch_steps.specs.Telling.{call_of, learned, learned_address, settled, image_after, is_answer, with_copy};
    ghost use Rattle.fetch_steps.specs.Work.{acts_left, acts_from_start, obstacle_of, only_waits, whole_fetch};
    ghost use Rattle.fetch_steps.specs.Ways.{Goes};
    ghost use Rattle.fetch_steps.specs.Places.{begun, granted, tried, looked, moved, lost, cleaned, missed, registered, loaded, got, served, answered, after, ended, with_its_copy};

    /// A fetch of the page by a node that knows this address of it, or none.
    pub fn new(page: PageId, writer: bool, addr: Option<Addr>) -> FetchStep
        ensures step { (r n : ℕ) (v : Image) → nat_eq n r ≡ writer
            → step_of result v Quiet ≡ begin_step r n (address_of result) }
        ensures fields { (result.page ≡ page) × (result.writer ≡ writer) × (result.address ≡ addr) }
        ensures latch { may_hold result ≡ false }
        ensures exact { result ≡ begun page writer addr }

        // The acts on its longest way.
        ensures start { acts_left result ≡ acts_from_start writer addr }
        ensures work { acts_left result ≤ 1 + whole_fetch writer }
    {
        let place = if addr.is_none() {
            Place::Register
        } else {
            Place::first(writer)
        };
        FetchStep {
            page,
            writer,
            address: addr,
            place,
            lsn: Lsn::new(0),
            unheard: false,
        }
    }

    pub fn page(&self) -> PageId
        ensures { result ≡ self.now.page }
    {
        self.page
    }

    /// The address of the page that the node knows.
    pub fn address(&self) -> Option<Addr>
        ensures { result ≡ self.now.address }
    {
        self.address
    }

    /// Whether a latch is held, or its last try was lost or unseen.
    #[tactic(auto, using(crate::proofs::Steps::holds_step))]
    pub fn may_hold(&self) -> bool
        ensures exact { result ≡ may_hold self.now }
        ensures step { (v : Image) → result ≡ holds_at (step_of self.now v Quiet) self.now.unheard }
    {
        self.place.may_hold(self.unheard)
    }

    /// The act that is next. While a call of the fetch is unanswered, its answer comes first.
    pub fn next(&self) -> Action
        ensures act { (v : Image) → HasImage self.now v
            → result ≡ act_of self.now.page self.now.address (step_of self.now v Quiet) }
        ensures placed { IsPlaced self.now.place self.now.address }
    {
        match self.place {
            Place::Register => Action::Register(self.page),
            Place::LatchS | Place::BackToS | Place::LastS => Action::Latch(self.page, Mode::S),
            Place::LatchX => Action::Latch(self.page, Mode::X),
            Place::Look | Place::LookAgain | Place::LookBack => Action::Look(self.page),
            Place::RwLook | Place::RwLookBack => Action::Look(self.page),
            Place::Read | Place::RwRead => Action::Read(self.page, self.slot()),
            Place::Get => Action::Get(self.page, self.lsn),
            Place::Write => Action::Write(self.page, self.slot()),
            Place::Clean => Action::Clean(self.page, self.lsn),
            Place::ReleaseS | Place::ReleaseDown | Place::ReleaseEnd => Action::Release(self.page),
            Place::RwBack | Place::RwEnd => Action::Release(self.page),
            Place::Held | Place::Done => Action::Finished,
        }
    }

    fn slot(&self) -> Addr
        requires { IsSome self.now.address }
        ensures { self.now.address ≡ Some result }
    {
        self.address.unwrap()
    }

    /// The fetch is told of its act.
    pub fn told(&mut self, told: &Told)
        // An access, and an answer, move the step and the address as the law says. Here r is the number
        // of the RW and n that of the node, v is the image that storage gave, and `call` is no call that
        // the fetch waits for.
        ensures access { (r n : ℕ) (v : Image) (call : Call) → nat_eq n r ≡ self.old.writer
            → is_of_work call ≡ false → is_answer told.now ≡ false
            → step_of self.new v call ≡ learned r n told.now (step_of self.old v call) }
        ensures answer { (r n : ℕ) (reply : Reply) (v : Image) → nat_eq n r ≡ self.old.writer
            → told.now ≡ Told.Answer reply
            → step_of self.new (image_after self.old told.now v) Quiet
            ≡ settled (answer_step r n None (call_of reply) (step_of self.old v (call_of reply)))
            (may_hold self.old) }
        ensures address { (v : Image) (call : Call) → is_of_work call ≡ false
            → address_of self.new
            ≡ learned_address told.now (step_of self.old v call) (address_of self.old) }

        // The home will be told the LSN of the image that is written.
        ensures image { (v : Image) → HasImage self.old v
            → HasImage self.new (image_after self.old told.now v) }

        // A latch whose try was lost or unseen may be held; one whose try was refused is not.
        ensures unseen { (v : Image) → told.now ≡ Told.NoAnswer
            → tries (step_of self.old v Quiet) ≡ true → may_hold self.new ≡ true }
        ensures refused { (v : Image) (holders : Holders) → told.now ≡ Told.Latch (Latch.Busy holders)
            → tries (step_of self.old v Quiet) ≡ true → may_hold self.new ≡ false }

        // What is told of the act that is next leaves fewer acts, where it is no obstacle; some obstacles
        // leave as many, and none leaves more than a fetch has that is to begin again.
        ensures falls { (v : Image) → Goes self.old v told.now
            → acts_left self.new < acts_left self.old }
        ensures waits { only_waits (obstacle_of self.old told.now) ≡ true
            → acts_left self.new ≡ acts_left self.old }
        ensures most { acts_left self.new ≤ 2 + whole_fetch self.old.writer }

        ensures same { (self.new.page ≡ self.old.page) × (self.new.writer ≡ self.old.writer) }

        // All of it at once.
        ensures exact { self.new ≡ after self.old told.now }
    {
        self.tell(told);
    }

    fn tell(&mut self, told: &Told)
        ensures { self.new ≡ after self.old told.now }
    {
        match told {
            Told::Answer(reply) => self.answered(reply),
            Told::Latch(latch) => self.tried(latch),
            Told::Seen(seen) => self.looked(&shown(*seen)),
            Told::Slab(outcome) => self.served(*outcome),
            Told::Cleaned(there) => self.cleaned(*there),
            Told::Installed => {}
            Told::NoAnswer => self.missed(),
        }
    }

    fn answered(&mut self, reply: &Reply)
        ensures { self.new ≡ answered self.old reply.now }
    {
        match reply {
            Reply::Registered { addr, .. } => self.registered(*addr),
            Reply::Got(outcome) => self.got(outcome),
            _ => {}
        }
    }

    fn registered(&mut self, addr: Addr)
        ensures { self.new ≡ registered self.old addr }
    {
        self.place = self.place.registered(self.writer);
        self.address = Some(addr);
    }

    fn got(&mut self, outcome: &Got)
        ensures { self.new ≡ got self.old outcome.now }
    {
        match outcome {
            Got::Image(page) => self.loaded(page.lsn()),
            Got::NotYet { .. } => {}
        }
    }

    fn loaded(&mut self, lsn: Lsn)
        ensures { self.new ≡ loaded self.old lsn }
    {
        if self.place == Place::Get {
            self.place = Place::Write;
            self.lsn = lsn;
        }
    }

    fn tried(&mut self, latch: &Latch)
        ensures { self.new ≡ tried self.old latch.now }
    {
        match latch {
            Latch::Granted => self.granted(),
            Latch::Busy(_) => self.unheard = false,
        }
    }

    fn granted(&mut self)
        ensures { self.new ≡ granted self.old }
    {
        if self.place == Place::ReleaseDown {
            self.address = None;
        }
        self.place = self.place.granted();
        self.unheard = false;
    }

    fn looked(&mut self, seen: &Seen)
        ensures { self.new ≡ looked self.old seen.now }
    {
        if self.place == Place::LookAgain {
            self.lsn = seen.floor;
        }
        self.place = self.place.seen(self.writer, seen);
    }

    fn served(&mut self, outcome: Result<(), SlabNo>)
        ensures { self.new ≡ served self.old outcome }
    {
        match outcome {
            Ok(()) => self.place = self.place.moved(),
            Err(_) => self.lost(),
        }
    }

    fn lost(&mut self)
        ensures { self.new ≡ lost self.old }
    {
        if self.place == Place::RwRead {
            self.address = None;
        }
        self.place = self.place.lost();
    }

    fn cleaned(&mut self, there: bool)
        ensures { self.new ≡ cleaned self.old there }
    {
        self.place = self.place.cleaned(self.writer, there);
    }

    fn missed(&mut self)
        ensures { self.new ≡ missed self.old }
    {
        if matches!(self.place, Place::LatchS | Place::LatchX) {
            self.unheard = true;
        }
    }

    /// The last try of a latch met a home that is down, so it was neither lost nor unseen.
    pub fn met_down(&mut self)
        ensures { self.new ≡ record self.old { unheard = false } }
    {
        self.unheard = false;
    }

    /// The node has a copy that it may use: one with local bit 0, after S was granted, or any copy of
    /// the RW, once it knows the page's address. The fetch is finished.
    pub fn have(&mut self)
        ensures step { (v : Image) → step_of self.new v Quiet ≡ with_copy (step_of self.old v Quiet) }
        ensures rest { (self.new.page ≡ self.old.page) × (self.new.address ≡ self.old.address) }
        ensures work { acts_left self.new ≤ acts_left self.old }
    {
        self.place = self.place.with_copy();
    }

    /// The fetch is given up: what is left is the release of a latch that it may hold, after the answer
    /// to a call that is unanswered.
    pub fn give_up(&mut self)
        ensures step { (N : Node) (v : Image)
            → step_of self.new v N.call ≡ settled (gives_up N).step (may_hold self.old) }
        ensures latch { may_hold self.new ≡ may_hold self.old }
        ensures rest { (self.new.page ≡ self.old.page) × (self.new.address ≡ self.old.address) }
        ensures work { acts_left self.new ≤ 1 }
    {
        self.place = if self.may_hold() {
            Place::ReleaseEnd
        } else {
            Place::Done
        };
        self.unheard = false;
    }
}

/// What a look shows; bit 1 and no address where the home has no entry.
fn shown(seen: Option<Seen>) -> Seen
    ensures { result ≡ shown seen }
{
    match seen {
        Some(seen) => seen,
        None => Seen {
            addr: None,
            bit: true,
            lsn: Lsn::new(0),
            floor: Lsn::new(0),
        },
    }
}
