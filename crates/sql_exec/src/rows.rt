use rm_base::Items;
use sql_values::Rows;

/// One list of rows for each row of the left table.
pub type RowLists = Items<Rows>;

/// The rows of a statement's ranges: of its only or left table by key, each once, and for a join those of
/// the right table for each row of the left one.
#[derive(Debug, Drop)]
pub struct RangeRows {
    pub left: Rows,
    pub right: RowLists,
}
