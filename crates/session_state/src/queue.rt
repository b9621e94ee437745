use rm_base::{SessionId, Stamp};
use table_machine::Roomy;

/// A commit whose group is not known to be in the store: the session that waits for it, its stamp, and the
/// offset of the log at which its group ends.
#[derive(Clone, Copy, Debug, PartialEq, Eq)]
pub struct Queued {
    pub owner: Option<SessionId>,
    pub stamp: Stamp,
    pub end: u64,
}

/// The commits that wait, in the order of their stamps.
pub type Queue = Roomy<Queued>;
