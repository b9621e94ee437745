use rm_base::{Addr, Lsn};

/// What a look shows of the home's entry of a page.
#[derive(Clone, Copy, Debug, PartialEq, Eq)]
pub struct Seen {
    pub addr: Option<Addr>,
    /// Whether the slot may not hold the latest image.
    pub bit: bool,
    pub lsn: Lsn,
    pub floor: Lsn,
}
