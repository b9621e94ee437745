ghost use Rattle.std.specs.Prelude.{◌≡◌, ◌↔◌, ℕ, true, false, Some, None, is_some, not, nat_eq, max, ◌&&◌, if◌then◌else◌};
ghost use Rattle.home_model.specs.Numbered.{put, nobody};
ghost use Rattle.home_model.specs.Latch.{may_share, MayExclude};
ghost use Rattle.home_model.specs.Entry.{no_entry, registered, takes_slot, unregistered, invalidated, struck, cleaned, shared_by, excluded_by, released_by, kicked, swept, stays};
ghost use Rattle.page_latches.specs.Set.{has, with_node, without_node};
ghost use Rattle.page_latches.specs.Holding.{IsGranted, OnGranted, OnBusy, latch_of};
ghost use Rattle.home_tables.specs.Table.{entry_of, address_number, is_idle, is_on, referred};
ghost use Rattle.home_tables.specs.Losing.{lost_on};
ghost use Rattle.home_tables.specs.Access.{accessed, MayTake, taken_by};

use page_latches::{Holders, Latch, Mode, NodeSet, PageLatch};
use rm_base::{Addr, Lsn, NodeId, PageId, SlabId};

/// What the home keeps of a page in the pool.
#[derive(Debug, Drop)]
pub struct Entry {
    pub page: PageId,
    /// The slot that holds the page.
    pub addr: Option<Addr>,
    /// Set: the pool's copy may not be the latest.
    pub bit: bool,
    /// The nodes that registered the page.
    pub refs: NodeSet,
    /// Those whose local bit is still to be set.
    pub due: NodeSet,
    /// Of the last clean.
    pub lsn: Lsn,
    /// A loader takes the page from storage only at an LSN of at least that.
    pub floor: Lsn,
    pub latch: PageLatch,
}

/// The nodes of `refs` other than `changer` that are among `fresh`.
fn due_beside(refs: &NodeSet, fresh: &NodeSet, changer: NodeId) -> NodeSet
    ensures { has result ≡ (λ m. has refs.now m && not (nat_eq m changer) && has fresh.now m) }
{
    let mut due = NodeSet::new();
    for node in refs.as_slice() {
        if *node != changer && fresh.contains(*node) {
            due.insert(*node);
        }
    }
    due
}

pub(crate) fn later(one: Lsn, other: Lsn) -> Lsn
    ensures { result ≡ max one other }
{
    if one.number() < other.number() {
        other
    } else {
        one
    }
}

impl Entry {
    /// Whether nobody refers to the page and its latch is free.
    pub fn is_idle(&self) -> bool
        ensures { result ≡ is_idle self.now }
    {
        self.refs.is_empty() && matches!(self.latch.holders(), Holders::Free)
    }

    #[tactic(auto, using(crate::proofs::Idle::lost_when))]
    /// Whether the page has lost its slot.
    pub fn is_lost(&self) -> bool
        ensures { result ≡ takes_slot (entry_of (Some self.now)) }
    {
        self.addr.is_none()
    }

    #[tactic(auto, using(crate::proofs::Idle::not_idle))]
    /// The entry of a page that a node registers, with its slot. The pool's copy is not the latest.
    pub fn entered(page: PageId, node: NodeId, fresh: Addr, floor: Lsn) -> Entry
        ensures model { entry_of (Some result) ≡ registered no_entry floor (address_number fresh) node }
        ensures busy { is_idle result ≡ false }
        ensures nodes { has result.due ≡ nobody }
    {
        let mut refs = NodeSet::new();
        refs.insert(node);
        Entry {
            page,
            addr: Some(fresh),
            bit: true,
            refs,
            due: NodeSet::new(),
            lsn: Lsn::new(0),
            floor,
            latch: PageLatch::new(),
        }
    }

    #[tactic(auto, using(crate::proofs::Idle::not_idle))]
    /// The node registers the page, which has lost its slot, and gets this one.
    pub fn enter(&mut self, node: NodeId, fresh: Addr)
        requires { self.old.addr ≡ None }
        ensures model { (floor : ℕ) → entry_of (Some self.new) ≡ registered (entry_of (Some self.old)) floor (address_number fresh) node }
        ensures busy { is_idle self.new ≡ false }
        ensures nodes { has self.new.due ≡ has self.old.due }
    {
        self.addr = Some(fresh);
        self.refs.insert(node);
    }

    /// The node registers the page.
    pub fn refer(&mut self, node: NodeId)
        ensures model { entry_of (Some self.new) ≡ referred (entry_of (Some self.old)) node }
        ensures rest { self.new ≡ record self.old { refs = with_node self.old.refs node } }
    {
        self.refs.insert(node);
    }

    /// The node refers to the page no longer.
    pub fn unregister(&mut self, node: NodeId)
        ensures model { entry_of (Some self.new) ≡ unregistered (entry_of (Some self.old)) node }
        ensures rest { self.new ≡ record self.old { refs = without_node self.old.refs node } }
    {
        self.refs.remove(node);
    }

    /// The node changes the page, of which the nodes `fresh` may have a copy that they take for the
    /// latest.
    pub fn invalidate(&mut self, fresh: &NodeSet, node: NodeId)
        ensures model { entry_of (Some self.new) ≡ invalidated (entry_of (Some self.old)) (has fresh.now) node }
        ensures slot { self.new.addr ≡ self.old.addr }
        ensures idle { is_idle self.new ≡ is_idle self.old }
    {
        self.due = due_beside(&self.refs, fresh, node);
        self.bit = true;
        self.floor = later(self.floor, self.lsn);
    }

    /// The local bit of the node was set.
    pub fn strike(&mut self, node: NodeId)
        ensures model { entry_of (Some self.new) ≡ struck (entry_of (Some self.old)) node }
        ensures slot { self.new.addr ≡ self.old.addr }
        ensures idle { is_idle self.new ≡ is_idle self.old }
    {
        self.due.remove(node);
    }

    /// The pool's copy is the latest, with that LSN.
    pub fn clean(&mut self, lsn: Lsn)
        ensures model { entry_of (Some self.new) ≡ cleaned (entry_of (Some self.old)) lsn }
        ensures rest { self.new ≡ record self.old { bit = false; lsn = lsn } }
    {
        self.bit = false;
        self.lsn = lsn;
    }

    pub fn try_s(&mut self, node: NodeId) -> Latch
        ensures granted { IsGranted result ↔ (may_share (entry_of (Some self.old)).latch node ≡ true) }
        ensures taken { OnGranted result (entry_of (Some self.new) ≡ shared_by (entry_of (Some self.old)) node) }
        ensures busy { OnBusy result (λ holders. holders ≡ self.old.latch) }
        ensures stays { OnBusy result (λ holders. self.new ≡ self.old) }
        ensures rest { self.new ≡ record self.old { latch = self.new.latch } }
    {
        self.latch.try_s(node)
    }

    pub fn try_x(&mut self, node: NodeId) -> Latch
        ensures granted { IsGranted result ↔ MayExclude (entry_of (Some self.old)).latch node }
        ensures taken { OnGranted result (entry_of (Some self.new) ≡ excluded_by (entry_of (Some self.old)) node) }
        ensures busy { OnBusy result (λ holders. holders ≡ self.old.latch) }
        ensures stays { OnBusy result (λ holders. self.new ≡ self.old) }
        ensures rest { self.new ≡ record self.old { latch = self.new.latch } }
    {
        self.latch.try_x(node)
    }

    pub fn release(&mut self, node: NodeId)
        ensures model { entry_of (Some self.new) ≡ released_by (entry_of (Some self.old)) node }
        ensures rest { self.new ≡ record self.old { latch = self.new.latch } }
    {
        self.latch.release(node);
    }
}

/// A call that changes the entry of one page.
#[derive(Clone, Copy, Debug)]
pub enum Access {
    Refer(NodeId),
    Unregister(NodeId),
    Release(NodeId),
    Clean(Lsn),
}

impl Entry {
    /// What the call does to the entry.
    pub fn access(&mut self, access: Access)
        ensures model { entry_of (Some self.new) ≡ accessed access (entry_of (Some self.old)) }
        ensures slot { self.new.addr ≡ self.old.addr }
        ensures nodes { has self.new.due ≡ has self.old.due }
    {
        match access {
            Access::Refer(node) => self.refer(node),
            Access::Unregister(node) => self.unregister(node),
            Access::Release(node) => self.release(node),
            Access::Clean(lsn) => self.clean(lsn),
        }
    }
}

impl Entry {
    /// A try of the latch.
    pub fn try_latch(&mut self, node: NodeId, mode: Mode) -> Latch
        ensures granted { IsGranted result ↔ MayTake mode (entry_of (Some self.old)).latch node }
        ensures taken { OnGranted result (entry_of (Some self.new) ≡ taken_by mode (entry_of (Some self.old)) node) }
        ensures busy { OnBusy result (λ holders. holders ≡ self.old.latch) }
        ensures stays { OnBusy result (λ holders. self.new ≡ self.old) }
        ensures rest { self.new ≡ record self.old { latch = self.new.latch } }
    {
        match mode {
            Mode::S => self.try_s(node),
            Mode::X => self.try_x(node),
        }
    }
}

impl Entry {
    /// The node has neither a reference nor a due pair nor the latch.
    pub fn kick(&mut self, node: NodeId)
        ensures model { entry_of (Some self.new) ≡ kicked (entry_of (Some self.old)) node }
        ensures slot { self.new.addr ≡ self.old.addr }
    {
        self.refs.remove(node);
        self.due.remove(node);
        self.latch.release(node);
    }

    /// What a loader has to reach once the pool's copy is lost.
    fn latest(&self) -> Lsn
        ensures { result ≡ max self.now.floor self.now.lsn }
    {
        later(self.floor, self.lsn)
    }

    /// The slab is lost, and the page's slot with it where it was there.
    pub fn lose(&mut self, slab: SlabId)
        ensures model { entry_of (Some self.new) ≡ lost_on slab (entry_of (Some self.old)) }
        ensures slot { self.new.addr ≡ (if is_on slab self.old.addr then None else self.old.addr) }
        ensures nodes { has self.new.due ≡ has self.old.due }
        ensures idle { is_idle self.new ≡ is_idle self.old }
    {
        if self.addr.is_some_and(|addr| addr.slab == slab) {
            self.addr = None;
            self.bit = true;
            self.floor = self.latest();
        }
    }

    /// Whether the page may be given away for the slot that it has.
    pub fn is_offered(&self) -> bool
        ensures { result ≡ (is_some self.now.addr && is_idle self.now) }
    {
        self.addr.is_some() && self.is_idle()
    }

    /// Whether a sweep at the tail leaves the entry.
    pub fn stays(&self, tail: Lsn) -> bool
        ensures { result ≡ stays (entry_of (Some self.now)) tail }
    {
        !self.bit && self.lsn <= tail
    }

    /// A sweep at the tail leaves the entry, of which no node knows any more.
    pub fn settle(&mut self, tail: Lsn)
        requires { stays (entry_of (Some self.old)) tail ≡ true }
        ensures model { entry_of (Some self.new) ≡ swept (entry_of (Some self.old)) tail }
        ensures slot { self.new.addr ≡ self.old.addr }
    {
        self.refs = NodeSet::new();
        self.due = NodeSet::new();
        self.latch = PageLatch::new();
        self.floor = tail;
    }
}
