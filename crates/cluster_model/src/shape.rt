ghost use Rattle.std.specs.Prelude.{◌↔◌, IsTrue};
ghost use Rattle.cluster_model.specs.Limits.{IsInLimits};

/// How large a cluster is.
#[derive(Clone, Copy, Debug, PartialEq, Eq)]
pub struct Shape {
    /// Database nodes.
    pub nodes: u8,
    /// Slabs of remote pages.
    pub slabs: u8,
    /// Slots of each slab, in pages.
    pub slots: u16,
    /// What each node's cache holds, in pages.
    pub cache: u16,
}

impl Shape {
    /// Whether a cluster of this shape can be made.
    pub fn is_in_limits(&self) -> bool
        ensures { IsTrue result ↔ IsInLimits self.now }
    {
        (1..=16).contains(&self.nodes)
            && (1..=16).contains(&self.slabs)
            && (8..=4096).contains(&self.slots)
            && (16..=1024).contains(&self.cache)
    }
}
