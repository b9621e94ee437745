/// What a plan does next, by phases.
#[derive(Clone, Copy, Debug, PartialEq, Eq)]
pub enum Phase {
    /// A page is to be registered or fetched.
    Register,
    /// A page is to be latched.
    Latch,
    /// The other nodes' copies are to be marked as old.
    Invalidate,
    /// The group is to be applied to the copies and to join the log buffer.
    Install,
    /// A page is to be written to its slot.
    Write,
    /// The home is to be told that a slot holds the latest image.
    Clean,
    /// A latch is to be released.
    Release,
    Finished,
}

/// Where a plan stands with one of its pages.
#[derive(Clone, Copy, Debug, PartialEq, Eq)]
pub enum Stage {
    /// The plan makes the page, which is to be registered.
    Making,
    /// The page has a copy and no address: it is to be registered.
    Registering,
    Fetching,
    Latching,
    /// The latch is held in X.
    Invalidating,
    /// The home answered that no other node has a fresh copy.
    Installing,
    /// The copy is the latest image. Without an address the page is registered again first.
    Writing,
    Cleaning,
    Releasing,
    /// The plan was given up.
    Quitting,
    Ended,
}
