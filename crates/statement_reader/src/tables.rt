//! What a statement reads.
use rm_base::PageId;
use sql_exec::RangeRows;
use sql_values::{Schema, Schemas};

/// A table, and the root of its tree.
#[derive(Debug, Drop)]
pub struct Table {
    pub schema: Schema,
    pub root: PageId,
}

/// The tables of a statement, the schemas of those that there are, and the rows of its ranges.
#[derive(Debug, Drop)]
pub struct Found {
    pub left: Option<Table>,
    pub right: Option<Table>,
    pub schemas: Schemas,
    pub rows: RangeRows,
}
