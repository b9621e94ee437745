use std::alloc::{AllocError, AllocFailed};
use thiserror::Error;

/// No memory was left. What a call that answers it could have changed stands as before.
#[derive(Clone, Copy, Debug, PartialEq, Eq, Error)]
#[error("out of memory")]
pub struct WantOfMemory;

impl From<AllocError> for WantOfMemory {
    fn from(_e: AllocError) -> WantOfMemory {
        WantOfMemory
    }
}

impl<T: Drop> From<AllocFailed<T>> for WantOfMemory {
    fn from(_e: AllocFailed<T>) -> WantOfMemory {
        WantOfMemory
    }
}

/// A log on which no cluster can start. `at` is the offset of the first group that is not good, in
/// bytes, or the log's length where each group is good and the whole is not.
#[derive(Clone, Copy, Debug, PartialEq, Eq, Error)]
#[error("bad log at {at}")]
pub struct BadLog {
    pub at: u64,
}
