ghost use Rattle.std.specs.Prelude.{◌≡◌, ◌≤◌, ◌++◌, length, IfOk, OnOk};
ghost use Rattle.sql_values.specs.Tables.{IsTable};
ghost use Rattle.sql_catalog.specs.Catalog.{catalog_row, schema_bytes, column_bytes, columns_bytes, sort_number};

use rm_base::{Bytes, Duplicate, PageId, WantOfMemory, put_u32};
use sql_values::{Column, Row, Schema, Sort, Value};
use std::alloc::Global;

/// The catalog's row of a table: its name, and the bytes of its root's page, its key and its columns.
pub fn row_for(alloc: Global, schema: &Schema, root: PageId) -> Result<Row, WantOfMemory>
    requires { IsTable schema.now }
    ensures { IfOk result (λ row. row ≡ catalog_row schema.now root) }
{
    let mut table = Bytes::new(alloc);
    table.append(schema.table.as_slice())?;
    let mut row = Row::new(alloc);
    row.push(Value::Text(table))?;
    row.push(Value::Text(schema_text(alloc, schema, root)?))?;
    Ok(row)
}

fn schema_text(alloc: Global, schema: &Schema, root: PageId) -> Result<Bytes, WantOfMemory>
    requires { IsTable schema.now }
    ensures { IfOk result (λ bytes. bytes ≡ schema_bytes schema.now root) }
{
    let mut head = [0u8; 4];
    put_u32(&mut head, 0, root.number());
    let mut bytes = Bytes::new(alloc);
    bytes.append(&head)?;
    bytes.push(schema.key)?;
    bytes.push(schema.columns.len() as u8)?;
    append_columns(&mut bytes, schema.columns.as_slice())?;
    Ok(bytes)
}

fn append_columns(bytes: &mut Bytes, columns: &[Column]) -> Result<(), WantOfMemory>
    ensures { OnOk result (bytes.new ≡ bytes.old ++ columns_bytes columns.now) }
{
    for column in columns {
        append_column(bytes, column)?;
    }
    Ok(())
}

fn append_column(bytes: &mut Bytes, column: &Column) -> Result<(), WantOfMemory>
    ensures { OnOk result (bytes.new ≡ bytes.old ++ column_bytes column.now) }
{
    let name = column.name.as_slice();
    bytes.push(name.len() as u8)?;
    bytes.append(name)?;
    bytes.push(number_of(column.sort))
}

fn number_of(sort: Sort) -> u8
    ensures { result ≡ sort_number sort }
{
    match sort {
        Sort::Int => 1,
        Sort::Text => 2,
    }
}
