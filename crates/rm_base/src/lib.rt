//! What every other crate of the workspace names: identifiers, numbers in bytes, and the two kinds of
//! list.
#![tactic(auto)]

mod errors;
mod few;
mod fields;
mod identifiers;
mod items;
mod key_range;
mod limits;
mod names;
mod places;
#[cfg(test)]
mod tests;

pub use errors::{BadLog, WantOfMemory};
pub use few::{Few, Full};
pub use fields::{
    field_laws, get_u16, get_u32, get_u64, push_u16, push_u32, push_u64, put_u16, put_u32, put_u64,
};
pub use identifiers::{
    CallNo, Epoch, Incarnation, Lsn, MsgNo, NodeId, PageId, SessionId, SlabId, Stamp, TrxId,
};
pub use items::{Duplicate, Items};
pub use key_range::{KeyRange, Ranges};
pub use limits::{
    CATALOG_ROOT_PAGE_ID, FIRST_FREE_PAGE_ID, FIRST_STAMP_PAGE_ID, FIRST_UNDO_PAGE_ID,
    LOG_CHUNK_BYTES, MAX_COLUMNS, MAX_INPUT_BYTES, MAX_KEY_BYTES, MAX_NAME_BYTES, MAX_NODES,
    MAX_PAGE_ID, MAX_PAGES, MAX_RECORD_BYTES, MAX_SESSIONS, MAX_SLABS, MAX_STATEMENT_BYTES,
    MAX_STATEMENT_TOKENS, MAX_TREE_LEVEL, MAX_TRX_ID, META_PAGE_ID, PAGE_BYTES, PAGE_HEADER_BYTES,
    PAGES_PER_CHUNK, RECORD_OVERHEAD_BYTES, SLOTS_PAGE_ID, STAMPS_PER_PAGE,
};
pub use names::{Name, Names};
pub use places::{Addr, Token, UndoPtr};

/// Bytes of a log, a page's item, a key or a stored value.
pub type Bytes = Items<u8>;

/// Bytes that SQL shows as text. They need not be UTF-8.
pub type Text = Items<u8>;

/// The pages of one mini-transaction.
pub type PageList = Few<PageId, 8>;

/// Database nodes, each at most once.
pub type NodeList = Few<NodeId, 16>;

/// Sessions, each at most once.
pub type SessionList = Few<SessionId, 64>;
