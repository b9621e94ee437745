ghost use Rattle.std.specs.Prelude.{◌≡◌, ◌≢◌, ◌∷◌, IfOk, IsErr, IsOk, OnErr, OnOk, None, [], fold, length};
ghost use Rattle.std.specs.List.{AllByRecursion};
ghost use Rattle.row_codec.specs.Records.{AreI64};
ghost use Rattle.sql_values.specs.Tables.{IsName, IsNamed, table_named};
ghost use Rattle.sql_database.specs.Database.{Database};
ghost use Rattle.sql_database.specs.Applied.{with_row, with_table};
ghost use Rattle.sql_engine.specs.Made.{Suits};
ghost use Rattle.sql_engine.specs.Sound.{IsNewTable};

use crate::store::{SpaceFull, TableStore};
use rm_base::{Name, WantOfMemory};
use sql_database::{Change, Changes};
use sql_values::{Row, Schema, Value};
use std::alloc::Global;

/// Makes a table, which has a name that no table has.
pub fn make_table<T: TableStore>(
    alloc: Global,
    store: &mut T,
    schema: &Schema,
) -> Result<Result<(), SpaceFull>, WantOfMemory>
    requires new { IsNewTable schema.now }
    requires absent { (d : Database) × T.tables store.old d × (table_named d.schemas schema.now.table ≡ None) }
    ensures made { (d : Database) → T.tables store.old d → table_named d.schemas schema.now.table ≡ None
        → IfOk result (λ a. IsOk a → T.tables store.new (with_table d schema.now)) }
    ensures room { IfOk result (λ a. OnErr a (T.full store.new)) }
    ensures keeps { (k : Database) → T.kept store.old k → T.kept store.new k }
{
    read_names(schema);
    store.create(alloc, schema)
}

/// Makes the changes one after the other, up to the first that finds no room.
pub fn make_changes<T: TableStore>(
    alloc: Global,
    store: &mut T,
    changes: &Changes,
) -> Result<Result<(), SpaceFull>, WantOfMemory>
    requires { (d : Database) × T.tables store.old d × AllByRecursion (Suits d.schemas) changes.now }
    ensures made { (d : Database) → T.tables store.old d → AllByRecursion (Suits d.schemas) changes.now
        → IfOk result (λ a. IsOk a → T.tables store.new (fold with_row d changes.now)) }
    ensures full { IfOk result (λ a. IsErr a → changes.now ≢ []) }
    ensures room { IfOk result (λ a. OnErr a (T.full store.new)) }
    ensures keeps { (k : Database) → T.kept store.old k → T.kept store.new k }
{
    for change in changes.as_slice() {
        if let Err(full) = make_change(alloc, store, change)? {
            return Ok(Err(full));
        }
    }
    Ok(Ok(()))
}

fn make_change<T: TableStore>(
    alloc: Global,
    store: &mut T,
    change: &Change,
) -> Result<Result<(), SpaceFull>, WantOfMemory>
    requires { (d : Database) × T.tables store.old d × Suits d.schemas change.now }
    ensures made { (d : Database) → T.tables store.old d → Suits d.schemas change.now
        → IfOk result (λ a. IsOk a → T.tables store.new (with_row d change.now)) }
    ensures room { IfOk result (λ a. OnErr a (T.full store.new)) }
    ensures keeps { (k : Database) → T.kept store.old k → T.kept store.new k }
{
    if let Some(row) = &change.row {
        read_ints(row);
    }
    store.change(alloc, change)
}

/// Reads the names of a table and its columns, whose lengths are known from then on.
fn read_names(schema: &Schema)
    ensures table { IsName schema.now.table }
    ensures columns { AllByRecursion IsNamed schema.now.columns }
{
    read_name(&schema.table);
    for column in schema.columns.as_slice() {
        read_name(&column.name);
    }
}

fn read_name(name: &Name)
    ensures { IsName name.now }
{
    let _text = name.as_slice();
}

/// Reads the cells of a row, whose INTs are known to be i64 from then on.
fn read_ints(row: &Row)
    ensures { AreI64 row.now }
{
    for cell in row.as_slice() {
        read_int(cell);
    }
}

fn read_int(cell: &Value)
    ensures { AreI64 (cell.now ∷ []) }
{
    if let Value::Int(number) = cell {
        let _number = *number;
    }
}
