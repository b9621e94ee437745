//! What the parts of a cluster tell each other.
#![tactic(auto)]

use page_image::Page;
use rm_base::{Epoch, Lsn};

/// What a log store answers to an append.
#[derive(Clone, Copy, Debug, PartialEq, Eq)]
pub enum Appended {
    /// The bytes are kept, and the log ends there now.
    Kept { tail: u64 },
    /// The bytes do not begin where the log ends.
    WrongOffset { tail: u64 },
    /// The epoch is older than the store's.
    Fenced { epoch: Epoch },
}

/// What a page chunk answers to a request for a page.
#[derive(Debug, Drop)]
pub enum Got {
    Image(Page),
    /// The groups up to the LSN that was asked for are not all there.
    NotYet { applied: Lsn },
}
