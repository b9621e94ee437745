ghost use Rattle.std.specs.Prelude.{◌≡◌, ◌≤◌, ◌↔◌, [], ◌∷◌, ℕ, true, false, IsTrue, length, nat_eq};
ghost use Rattle.std.specs.List.{list_all};
ghost use Rattle.home_model.specs.Numbered.{put, nobody};
ghost use Rattle.page_latches.specs.Set.{has, with_node, without_node, IsNodeSet};

use arrayvec::ArrayVec;
use rm_base::NodeId;
use std::marker::Model;

/// A set of nodes, kept inline. Contracts see the list of its nodes, in the order in which they came.
#[derive(Debug, Drop)]
pub struct NodeSet {
    nodes: ArrayVec<NodeId, 16>,
}

impl Model for NodeSet {
    ghost use Rattle.std.specs.Prelude.{List, ℕ};
    ghost use Rattle.page_latches.specs.Set.{IsNodeSet};

    ghost Value = { List ℕ };

    ghost view = { λ set. set.nodes.items };

    ghost invariant = { λ set. IsNodeSet set.nodes.items };
}

impl NodeSet {
    #[tactic(auto, using(crate::proofs::Sets::empty_set))]
    pub fn new() -> NodeSet
        ensures list { result ≡ [] }
        ensures members { has result ≡ nobody }
    {
        NodeSet {
            nodes: ArrayVec::new(),
        }
    }

    /// The nodes, each once.
    pub fn as_slice(&self) -> &[NodeId]
        ensures nodes { result.now ≡ self.now }
        ensures rules { IsNodeSet self.now }
        ensures bound { length self.now ≤ 16 }
    {
        self.nodes.as_slice()
    }

    pub fn is_empty(&self) -> bool
        ensures { IsTrue result ↔ (self.now ≡ []) }
    {
        self.nodes.is_empty()
    }

    pub fn contains(&self, node: NodeId) -> bool
        ensures { result ≡ has self.now node }
    {
        self.nodes.as_slice().contains(&node)
    }

    /// Whether no other node is there.
    pub fn has_only(&self, node: NodeId) -> bool
        ensures { result ≡ list_all (λ m. nat_eq m node) self.now }
    {
        self.nodes.as_slice().iter().all(|m| *m == node)
    }

    #[tactic(auto, using(crate::proofs::Sets::room))]
    /// Puts the node in, where it is not there.
    pub fn insert(&mut self, node: NodeId)
        ensures list { self.new ≡ with_node self.old node }
        ensures members { has self.new ≡ put (has self.old) node true }
    {
        let _number = node.number();
        if !self.contains(node) {
            self.nodes.push(node);
        }
    }

    /// Takes the node out, where it is there.
    pub fn remove(&mut self, node: NodeId)
        ensures list { self.new ≡ without_node self.old node }
        ensures members { has self.new ≡ put (has self.old) node false }
    {
        self.nodes = others(self.nodes.as_slice(), node);
    }

    /// The same set.
    pub fn copy(&self) -> NodeSet
        ensures { result ≡ self.now }
    {
        let nodes = copied(self.nodes.as_slice());
        NodeSet { nodes }
    }
}

fn others(nodes: &[NodeId], node: NodeId) -> ArrayVec<NodeId, 16>
    requires { length nodes.now ≤ 16 }
    ensures { result.items ≡ without_node nodes.now node }
{
    let mut others = ArrayVec::new();
    for other in nodes {
        if *other != node {
            others.push(*other);
        }
    }
    others
}

fn copied(nodes: &[NodeId]) -> ArrayVec<NodeId, 16>
    requires { length nodes.now ≤ 16 }
    ensures { result.items ≡ nodes.now }
{
    let mut copied = ArrayVec::new();
    for node in nodes {
        copied.push(*node);
    }
    copied
}
