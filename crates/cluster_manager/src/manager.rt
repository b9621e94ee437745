ghost use Rattle.std.specs.Prelude.{◌≡◌, ◌≤◌, ◌<◌, ◌↔◌, ℕ, Some, None, true, false, IsNone, IfSome, IsTrue};
ghost use Rattle.page_latches.specs.Set.{has};
ghost use Rattle.cluster_manager.specs.Steps.{IsFirstUp, IsStepOf, stage_after, writer_after, without};

use crate::steps::{Stage, Step, Takeover};
use page_latches::NodeSet;
use rm_base::NodeId;
use std::marker::Model;

/// Which node has the writes, and which one is taking them. Contracts see both.
#[derive(Debug, Drop)]
pub struct Manager {
    writer: Option<NodeId>,
    takeover: Option<Takeover>,
}

impl Model for Manager {
    ghost use Rattle.cluster_manager.specs.Takeover.{ManagerState};

    ghost Value = { ManagerState };

    ghost view = { λ manager. record { writer = manager.writer; takeover = manager.takeover } };
}

fn is_up(up: &NodeSet, number: u8) -> bool
    requires { number < 16 }
    ensures { result ≡ has up.now number }
{
    match NodeId::new(number) {
        Some(node) => up.contains(node),
        None => false,
    }
}

#[tactic(auto, using(crate::proofs::FirstUp::one_past, crate::proofs::FirstUp::found_first))]
/// The least node from that number on that is up.
fn first_up(up: &NodeSet, from: u8) -> Option<NodeId>
    ensures { IsFirstUp (has up.now) from result }
{
    for number in from..16 {
        if is_up(up, number) {
            return Some(NodeId::new(number).unwrap());
        }
    }
    None
}

/// The step after the stage. None where the node is at work.
fn step_after(stage: Stage, up: &NodeSet) -> Option<Step>
    ensures none { IsNone result ↔ IsStepOf stage (has up.now) Step.Work }
    ensures step { IfSome result (IsStepOf stage (has up.now)) }
{
    match stage {
        Stage::Fenced => Some(Step::Tail),
        Stage::Tailed => Some(Step::Ship),
        Stage::Shipped => Some(Step::Sweep),
        Stage::Rejoining(from) => {
            let node = first_up(up, from)?;
            Some(Step::Rejoin(node))
        }
        Stage::Worked => Some(Step::Opened),
    }
}

/// The takeover after the step of the node.
fn takeover_after(node: NodeId, step: &Step) -> Option<Takeover>
    ensures { result ≡ stage_after node step.now }
{
    let stage = match step {
        Step::Fence => Stage::Fenced,
        Step::Tail => Stage::Tailed,
        Step::Ship => Stage::Shipped,
        Step::Sweep => Stage::Rejoining(0),
        Step::Rejoin(other) => Stage::Rejoining(other.number() + 1),
        Step::Work => Stage::Worked,
        Step::Opened => return None,
    };
    Some(Takeover { node, stage })
}

/// Which node has the writes after the step of the node.
fn writer_after(node: NodeId, step: &Step) -> Option<NodeId>
    ensures { result ≡ writer_after node step.now }
{
    match step {
        Step::Opened => Some(node),
        _ => None,
    }
}

/// The node, unless it is that one.
fn without(writer: Option<NodeId>, node: NodeId) -> Option<NodeId>
    ensures { result ≡ without writer node }
{
    let writer = writer?;
    if writer == node { None } else { Some(writer) }
}

impl Manager {
    ghost use Rattle.cluster_manager.specs.Takeover.{ManagerState, first_manager, MayTake, IsDue, Follows, after, after_crash, no_manager};

    /// Node 0 has the writes.
    pub fn new() -> Manager
        ensures { result ≡ first_manager }
    {
        Manager {
            writer: NodeId::new(0),
            takeover: None,
        }
    }

    /// The node that has the writes.
    pub fn writer(&self) -> Option<NodeId>
        ensures { result ≡ self.now.writer }
    {
        self.writer
    }

    /// The takeover that is under way.
    pub fn takeover(&self) -> Option<Takeover>
        ensures { result ≡ self.now.takeover }
    {
        self.takeover
    }

    fn has_writer(&self, up: &NodeSet) -> bool
        ensures { IsTrue result ↔ ((n : ℕ) × (self.now.writer ≡ Some n) × (has up.now n ≡ true)) }
    {
        match self.writer() {
            Some(node) => up.contains(node),
            None => false,
        }
    }

    fn is_free_for(&self, node: NodeId) -> bool
        ensures { IsTrue result ↔ ((t : Takeover) → self.now.takeover ≡ Some t → t.node ≡ node) }
    {
        match self.takeover() {
            Some(takeover) => takeover.node == node,
            None => true,
        }
    }

    /// Whether the node may take the writes.
    pub fn may_take(&self, node: NodeId, up: &NodeSet, home: bool) -> bool
        ensures { IsTrue result ↔ MayTake self.now (has up.now) home node }
    {
        home && up.contains(node) && !self.has_writer(up) && self.is_free_for(node)
    }

    /// The step that is due of the node which takes the writes. None exactly where it may not take them,
    /// or is at work.
    pub fn next(&self, node: NodeId, up: &NodeSet, home: bool) -> Option<Step>
        ensures none { IsNone result ↔ (MayTake self.now (has up.now) home node
            → IsDue self.now.takeover (has up.now) node Step.Work) }
        ensures due { IfSome result (IsDue self.now.takeover (has up.now) node) }
    {
        if !self.may_take(node, up, home) {
            return None;
        }
        match self.takeover() {
            Some(takeover) => step_after(takeover.stage, up),
            None => Some(Step::Fence),
        }
    }

    /// The node did the step.
    pub fn did(&mut self, node: NodeId, step: &Step)
        requires { Follows self.old.takeover node step.now }
        ensures { self.new ≡ after node step.now }
    {
        self.takeover = takeover_after(node, step);
        self.writer = writer_after(node, step);
    }

    /// The node went down. It has the writes no longer, and its takeover is none.
    pub fn downed(&mut self, node: NodeId)
        ensures { self.new ≡ after_crash self.old node }
    {
        self.writer = without(self.writer, node);
        if let Some(takeover) = self.takeover() {
            if takeover.node == node {
                self.takeover = None;
            }
        }
    }

    /// The home was renewed. No node has the writes, and none is taking them.
    pub fn renewed(&mut self)
        ensures { self.new ≡ no_manager }
    {
        self.writer = None;
        self.takeover = None;
    }
}
