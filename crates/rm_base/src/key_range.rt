use crate::Bytes;
use crate::items::Items;

/// Keys from `low` to `high`, both included. None is no bound on that side.
#[derive(Debug, Drop)]
pub struct KeyRange {
    pub low: Option<Bytes>,
    pub high: Option<Bytes>,
}

/// Ranges in the order in which they are read.
pub type Ranges = Items<KeyRange>;
