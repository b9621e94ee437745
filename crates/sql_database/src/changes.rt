ghost use Rattle.std.specs.Prelude.{◌≡◌, ◌++◌, IfOk, OnOk, codes};
ghost use Rattle.sql_database.specs.Catalog.{column_cells, creation, schema_row, sort_number};

use rm_base::{Bytes, Duplicate, Items, Name, Text, WantOfMemory};
use sql_values::{Column, Row, Schema, Sort, Value};
use std::alloc::Global;

/// The row that stands under a key of a table from now on, or that none does.
#[derive(Debug, Drop)]
pub struct Change {
    pub table: Name,
    pub key: Bytes,
    pub row: Option<Row>,
}

pub type Changes = Items<Change>;

/// The change that makes a table.
pub fn create_table(alloc: Global, schema: &Schema) -> Result<Change, WantOfMemory>
    ensures { IfOk result (λ r. r ≡ creation schema.now) }
{
    let table = reserved_name(alloc)?;
    let mut key = Bytes::new(alloc);
    key.append(schema.table.as_slice())?;
    let row = Some(catalog_row(alloc, schema)?);
    Ok(Change { table, key, row })
}

/// The word under which changes of the catalog stand.
fn reserved_name(alloc: Global) -> Result<Name, WantOfMemory>
    ensures { IfOk result (λ n. n ≡ codes "table") }
{
    let mut text = Text::new(alloc);
    text.append(b"table")?;
    match Name::new(text) {
        Some(name) => Ok(name),
        None => unreachable!(),
    }
}

fn catalog_row(alloc: Global, schema: &Schema) -> Result<Row, WantOfMemory>
    ensures { IfOk result (λ r. r ≡ schema_row schema.now) }
{
    let mut row = Row::new(alloc);
    row.push(name_value(alloc, &schema.table)?)?;
    row.push(Value::Int(i64::from(schema.key)))?;
    for column in schema.columns.as_slice() {
        push_column(alloc, &mut row, column)?;
    }
    Ok(row)
}

fn push_column(alloc: Global, row: &mut Row, column: &Column) -> Result<(), WantOfMemory>
    ensures { OnOk result (row.new ≡ row.old ++ column_cells column.now) }
{
    row.push(name_value(alloc, &column.name)?)?;
    row.push(sort_value(column.sort))
}

fn sort_value(sort: Sort) -> Value
    ensures { result ≡ sort_number sort }
{
    match sort {
        Sort::Int => Value::Int(1),
        Sort::Text => Value::Int(2),
    }
}

fn name_value(alloc: Global, name: &Name) -> Result<Value, WantOfMemory>
    ensures { IfOk result (λ v. v ≡ Value.Text name.now) }
{
    let mut text = Text::new(alloc);
    text.append(name.as_slice())?;
    Ok(Value::Text(text))
}
