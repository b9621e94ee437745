use rm_base::{Items, Lsn, PageId, SessionId};

/// Where a node had a page from.
#[derive(Clone, Copy, Debug, PartialEq, Eq)]
pub enum Origin {
    /// Its own cache.
    Local,
    /// A slab.
    Pool,
    /// The page chunks.
    Storage,
}

/// A statement used a page: the statement by its session and its number there from 1, and the page's LSN.
#[derive(Clone, Copy, Debug, PartialEq, Eq)]
pub struct Use {
    pub session: SessionId,
    pub number: u32,
    pub page: PageId,
    pub lsn: Lsn,
    pub origin: Origin,
}

/// Uses as they follow each other.
pub type Uses = Items<Use>;

/// A statement that has its reply, by its session and its number there from 1.
#[derive(Clone, Copy, Debug, PartialEq, Eq)]
pub struct Answered {
    pub session: SessionId,
    pub number: u32,
}

/// Statements in the order of their replies.
pub type AnsweredList = Items<Answered>;

/// What a cluster's statements read.
#[derive(Debug, Drop)]
pub struct Trace {
    pub uses: Uses,
    pub answered: AnsweredList,
}
