//! The limits of the database, each with its unit in its name. Definitions, code and proofs cite them here.

/// Database nodes of a cluster.
pub const MAX_NODES: usize = 16;

/// Slabs of a cluster.
pub const MAX_SLABS: usize = 16;

/// Sessions of a cluster.
pub const MAX_SESSIONS: usize = 64;

/// Bytes of a name.
pub const MAX_NAME_BYTES: usize = 32;

/// Columns of a table.
pub const MAX_COLUMNS: usize = 16;

/// Bytes of a whole input: of the lines that are served, or of a script.
pub const MAX_INPUT_BYTES: usize = 4_194_304;

/// Bytes of a statement's text.
pub const MAX_STATEMENT_BYTES: usize = 65_536;

/// Tokens of a statement.
pub const MAX_STATEMENT_TOKENS: usize = 256;

/// Bytes of a key, as pages hold it.
pub const MAX_KEY_BYTES: usize = 64;

/// Bytes of a leaf's record, as pages hold it.
pub const MAX_RECORD_BYTES: usize = 1000;

/// Bytes of a leaf's record besides its key and its value.
pub const RECORD_OVERHEAD_BYTES: usize = 16;

/// Bytes of a page.
pub const PAGE_BYTES: usize = 4096;

/// Bytes of a page's header.
pub const PAGE_HEADER_BYTES: usize = 32;

/// Pages of a database, the unmade ones with them.
pub const MAX_PAGES: u32 = 32_768;

/// The number of the last page.
pub const MAX_PAGE_ID: u32 = 32_767;

/// The level of the highest page of a tree, whose leaves have level 0.
pub const MAX_TREE_LEVEL: u8 = 8;

/// The meta page.
pub const META_PAGE_ID: u32 = 0;

/// The page of the sessions' slots.
pub const SLOTS_PAGE_ID: u32 = 1;

/// The first page of commit stamps.
pub const FIRST_STAMP_PAGE_ID: u32 = 2;

/// The root of the catalog.
pub const CATALOG_ROOT_PAGE_ID: u32 = 1026;

/// The first page of undo items.
pub const FIRST_UNDO_PAGE_ID: u32 = 1027;

/// The first page that no opened database has made.
pub const FIRST_FREE_PAGE_ID: u32 = 1028;

/// Stamps of a page.
pub const STAMPS_PER_PAGE: usize = 508;

/// The number of the last transaction.
pub const MAX_TRX_ID: u64 = 520_192;

/// Bytes of a chunk of the log.
pub const LOG_CHUNK_BYTES: usize = 65_536;

/// Pages of a chunk of the page service.
pub const PAGES_PER_CHUNK: u32 = 256;
