ghost use Rattle.std.specs.Prelude.{◌≡◌, ◌↔◌, ℕ, true, false, IsTrue};
ghost use Rattle.home_model.specs.Latch.{free_latch, may_share, MayExclude, grant_s, grant_x, released, Excludes};
ghost use Rattle.page_latches.specs.Holding.{latch_of, IsHeld, IsGranted, OnGranted, OnBusy, lets_exclude};

use crate::node_set::NodeSet;
use rm_base::NodeId;
use std::marker::Model;
use std::mem;

/// How a node holds a latch: beside other readers, or alone.
#[derive(Clone, Copy, Debug, PartialEq, Eq)]
pub enum Mode {
    S,
    X,
}

/// Who holds a latch.
#[derive(Debug, Drop)]
pub enum Holders {
    Free,
    Shared(NodeSet),
    Exclusive(NodeId),
}

/// The answer to a try.
#[derive(Debug, Drop)]
pub enum Latch {
    Granted,
    Busy(Holders),
}

#[tactic(auto, using(crate::proofs::Sets::some_node))]
fn shared_by(node: NodeId) -> Holders
    ensures latch { latch_of result ≡ grant_s free_latch node }
    ensures held { IsHeld result }
{
    let mut nodes = NodeSet::new();
    nodes.insert(node);
    Holders::Shared(nodes)
}

impl Holders {
    /// The same holders.
    pub fn copy(&self) -> Holders
        ensures { result ≡ self.now }
    {
        match self {
            Holders::Free => Holders::Free,
            Holders::Shared(nodes) => Holders::Shared(nodes.copy()),
            Holders::Exclusive(node) => Holders::Exclusive(*node),
        }
    }

    fn lets_share(&self, node: NodeId) -> bool
        ensures { result ≡ may_share (latch_of self.now) node }
    {
        match self {
            Holders::Free => true,
            Holders::Shared(_) => true,
            Holders::Exclusive(holder) => *holder == node,
        }
    }

    fn lets_exclude(&self, node: NodeId) -> bool
        ensures { result ≡ lets_exclude self.now node }
    {
        match self {
            Holders::Free => true,
            Holders::Shared(nodes) => nodes.has_only(node),
            Holders::Exclusive(holder) => *holder == node,
        }
    }

    #[tactic(auto, using(crate::proofs::Sets::some_node))]
    fn with_reader(self, node: NodeId) -> Holders
        ensures latch { latch_of result ≡ grant_s (latch_of self) node }
        ensures held { IsHeld result }
    {
        match self {
            Holders::Free => shared_by(node),
            Holders::Shared(mut nodes) => {
                nodes.insert(node);
                Holders::Shared(nodes)
            }
            Holders::Exclusive(_) => shared_by(node),
        }
    }

    fn without(self, node: NodeId) -> Holders
        ensures latch { latch_of result ≡ released (latch_of self) node }
        ensures held { IsHeld result }
    {
        match self {
            Holders::Free => Holders::Free,
            Holders::Shared(mut nodes) => {
                nodes.remove(node);
                if nodes.is_empty() {
                    Holders::Free
                } else {
                    Holders::Shared(nodes)
                }
            }
            Holders::Exclusive(holder) => {
                if holder == node {
                    Holders::Free
                } else {
                    Holders::Exclusive(holder)
                }
            }
        }
    }
}

/// The latch of a page. Contracts see its holders.
#[derive(Debug, Drop)]
pub struct PageLatch {
    holders: Holders,
}

impl Model for PageLatch {
    ghost use Rattle.page_latches.specs.declared.latch.Holders.{Holders};

    ghost Value = { Holders };

    ghost use Rattle.page_latches.specs.Holding.{IsHeld};

    ghost view = { λ latch. latch.holders };

    ghost invariant = { λ latch. IsHeld latch.holders };
}

impl PageLatch {
    pub fn new() -> PageLatch
        ensures { result ≡ Holders.Free }
    {
        PageLatch {
            holders: Holders::Free,
        }
    }

    pub fn holders(&self) -> &Holders
        ensures holders { result.now ≡ self.now }
        ensures rules { IsHeld self.now }
    {
        &self.holders
    }

    /// A try to hold it in S. Busy, with the holders, exactly where another node holds it in X; then
    /// nothing changes.
    pub fn try_s(&mut self, node: NodeId) -> Latch
        ensures granted { IsGranted result ↔ (may_share (latch_of self.old) node ≡ true) }
        ensures taken { OnGranted result (latch_of self.new ≡ grant_s (latch_of self.old) node) }
        ensures busy { OnBusy result (λ holders. holders ≡ self.old) }
        ensures stays { OnBusy result (λ holders. self.new ≡ self.old) }
    {
        if !self.holders.lets_share(node) {
            return Latch::Busy(self.holders.copy());
        }
        let holders = mem::replace(&mut self.holders, Holders::Free);
        self.holders = holders.with_reader(node);
        Latch::Granted
    }

    /// A try to hold it in X. Busy, with the holders, exactly where another node holds it; then nothing
    /// changes.
    pub fn try_x(&mut self, node: NodeId) -> Latch
        ensures granted { IsGranted result ↔ MayExclude (latch_of self.old) node }
        ensures taken { OnGranted result (latch_of self.new ≡ grant_x (latch_of self.old) node) }
        ensures busy { OnBusy result (λ holders. holders ≡ self.old) }
        ensures stays { OnBusy result (λ holders. self.new ≡ self.old) }
    {
        if !self.holders.lets_exclude(node) {
            return Latch::Busy(self.holders.copy());
        }
        self.holders = Holders::Exclusive(node);
        Latch::Granted
    }

    /// The node holds it no longer. Nothing changes where it did not hold it.
    pub fn release(&mut self, node: NodeId)
        ensures { latch_of self.new ≡ released (latch_of self.old) node }
    {
        let holders = mem::replace(&mut self.holders, Holders::Free);
        self.holders = holders.without(node);
    }
}
