use sql_database::{Changes, SqlReply};
use sql_values::{Rows, Value};

/// What evaluating a statement gives: rows, the changes that it wants, or why it is refused.
#[derive(Debug, Drop)]
pub enum Outcome {
    Rows(Rows),
    Changes(Changes),
    Duplicate(Repeated),
    Refused(SqlReply),
}

/// The changes of an INSERT, and the first of its keys that is there already or in an earlier tuple. A writer
/// looks whether one of the keys is in conflict before it answers Duplicate.
#[derive(Debug, Drop)]
pub struct Repeated {
    pub changes: Changes,
    pub key: Value,
}
