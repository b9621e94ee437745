ghost use Rattle.std.specs.Prelude.{◌≢◌, IsTrue, ◌↔◌};
ghost use Rattle.std.specs.List.{AllByRecursion};
ghost use Rattle.sql_values.specs.Tables.{Differ, IsTable};

use rm_base::MAX_COLUMNS;
use sql_values::{Column, Schema};

/// Whether a table can have the schema: 1 to 16 columns of different names, one of which is the key.
pub fn is_table(schema: &Schema) -> bool
    ensures { IsTrue result ↔ IsTable schema.now }
{
    let columns = schema.columns.as_slice();
    !columns.is_empty()
        && columns.len() <= MAX_COLUMNS
        && usize::from(schema.key) < columns.len()
        && differ(columns)
}

/// Whether no two columns have one name.
fn differ(columns: &[Column]) -> bool
    ensures { IsTrue result ↔ Differ columns.now }
{
    match columns.split_first() {
        None => true,
        Some((first, rest)) => differs(first.name.as_slice(), rest) && differ(rest),
    }
}

fn differs(name: &[u8], columns: &[Column]) -> bool
    ensures { IsTrue result ↔ AllByRecursion (λ d. d.name ≢ name.now) columns.now }
{
    match columns.split_first() {
        None => true,
        Some((first, rest)) => first.name.as_slice() != name && differs(name, rest),
    }
}
