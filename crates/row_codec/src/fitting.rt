ghost use Rattle.std.specs.Prelude.{◌≡◌, ◌↔◌, IsTrue};
ghost use Rattle.row_codec.specs.Records.{FitColumns, FitsSchema, HasKey};

use sql_values::{Column, Row, Schema, Value, fits};

/// Whether the row is one of the schema: its cells fit the columns, one for one, and its key is there
/// and not NULL.
pub fn fits_schema(schema: &Schema, row: &Row) -> bool
    ensures { IsTrue result ↔ FitsSchema schema.now row.now }
{
    let cells = row.as_slice();
    fit_columns(schema.columns.as_slice(), cells) && has_key(cells, usize::from(schema.key))
}

fn has_key(cells: &[Value], key: usize) -> bool
    ensures { IsTrue result ↔ HasKey cells.now key }
{
    match cells.get(key) {
        None | Some(Value::Null) => false,
        Some(_) => true,
    }
}

fn fit_columns(columns: &[Column], cells: &[Value]) -> bool
    ensures { IsTrue result ↔ FitColumns columns.now cells.now }
{
    if columns.len() != cells.len() {
        return false;
    }
    for (column, cell) in columns.iter().zip(cells) {
        if !fits(cell, column.sort) {
            return false;
        }
    }
    true
}
