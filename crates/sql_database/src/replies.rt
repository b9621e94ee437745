use rm_base::{Name, Text};
use sql_values::{Rows, Value};

/// What a session is told of its statement.
#[derive(Debug, Drop)]
pub enum SqlReply {
    Ok(u64),
    Rows(Rows),
    Syntax(usize),
    NoTable(Name),
    TableExists(Name),
    NoColumn(Text),
    WrongType,
    NullKey,
    Duplicate(Value),
    Overflow,
    TooLarge,
    ReadOnly,
    NoTransaction,
    InTransaction,
    Conflict(Value),
    Lost,
    Unavailable,
    PoolFull(u32),
    SpaceFull,
    TrxFull,
}
