ghost use Rattle.std.specs.Prelude.{◌↔◌, IsTrue};
ghost use Rattle.sql_values.specs.Order.{Fits};

use rm_base::{Duplicate, Items, Text, WantOfMemory};
use std::alloc::Global;

/// What a column holds and an expression gives. A TEXT is bytes, which need not be UTF-8.
#[derive(Debug, Drop)]
pub enum Value {
    Null,
    Int(i64),
    Text(Text),
}

/// What the values of a column are, beside NULL, which fits each.
#[derive(Clone, Copy, Debug, PartialEq, Eq)]
pub enum Sort {
    Int,
    Text,
}

/// Whether a column of the sort may hold the value: NULL fits each.
pub fn fits(value: &Value, sort: Sort) -> bool
    ensures { IsTrue result ↔ Fits value.now sort }
{
    match (value, sort) {
        (Value::Null, _) | (Value::Int(_), Sort::Int) | (Value::Text(_), Sort::Text) => true,
        _ => false,
    }
}

impl Duplicate for Value {
    fn copy(&self, alloc: Global) -> Result<Value, WantOfMemory> {
        match self {
            Value::Null => Ok(Value::Null),
            Value::Int(number) => Ok(Value::Int(*number)),
            Value::Text(text) => Ok(Value::Text(text.copy(alloc)?)),
        }
    }
}

/// The values of a table's columns, in the order of the columns.
pub type Row = Items<Value>;

/// Rows in the order of their key.
pub type Rows = Items<Row>;
