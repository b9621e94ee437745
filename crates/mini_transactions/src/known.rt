use rm_base::{Addr, Few, Lsn};

/// What the read-write node knows of a page as a plan that has the page begins.
#[derive(Clone, Copy, Debug, PartialEq, Eq, Default)]
pub struct KnownPage {
    /// The address that it keeps.
    pub addr: Option<Addr>,
    /// Whether it has a copy.
    pub copy: bool,
}

/// What it knows of each page of the plan, in the plan's order.
pub type KnownPages = Few<KnownPage, 8>;

/// What the read-write node knows as a plan begins.
#[derive(Debug, Drop)]
pub struct Known {
    /// The LSN that the plan's group will get.
    pub lsn: Lsn,
    pub pages: KnownPages,
}
