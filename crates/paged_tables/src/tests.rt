ghost use Rattle.std.specs.Prelude.{◌≡◌, [], ◌∷◌, codes, Some, IfOk, IfSome};
ghost use Rattle.sql_values.specs.declared.values.Sort.TheVariants as sort;
ghost use Rattle.row_codec.specs.Keys.{key_bytes};
ghost use Rattle.sql_database.specs.Database.{Database, empty};
ghost use Rattle.sql_database.specs.Applied.{with_table};
ghost use Rattle.paged_tables.specs.Content.{HoldsNow, HoldsKept};

use crate::*;
use rm_base::{Bytes, KeyRange, Name, Text, WantOfMemory};
use row_codec::key_of;
use sql_database::Change;
use sql_engine::TableStore;
use sql_values::{Column, Columns, Row, Schema, Sort, Value};
use std::alloc::Global;
use std::test::Fail;

fn name(alloc: Global) -> Result<Name, WantOfMemory>
    ensures { IfOk result (λ name. name ≡ codes "t") }
{
    let mut text = Text::new(alloc);
    text.append(b"t")?;
    Ok(Name::new(text).unwrap())
}

/// A table `t` with one column, an INT, which is its key.
fn schema(alloc: Global) -> Result<Schema, WantOfMemory>
    ensures { IfOk result (λ s. s ≡ record { table = codes "t"; columns = record { name = codes "t"; sort = sort.Int } ∷ []; key = 0 }) }
{
    let mut columns = Columns::new(alloc);
    columns.push(Column {
        name: name(alloc)?,
        sort: Sort::Int,
    })?;
    Ok(Schema {
        table: name(alloc)?,
        columns,
        key: 0,
    })
}

/// The bytes of an INT as a key.
fn key(alloc: Global, number: i64) -> Result<Bytes, WantOfMemory>
    ensures { IfOk result (λ key. key ≡ key_bytes (Value.Int number)) }
{
    Ok(key_of(alloc, &Value::Int(number))?.unwrap())
}

/// Tables with that one table, which is not kept yet.
fn with_table(alloc: Global) -> Result<Option<PagedTables>, WantOfMemory>
    ensures now { IfOk result (λ made. IfSome made (λ tables. HoldsNow tables
        (with_table empty (record { table = codes "t"; columns = record { name = codes "t"; sort = sort.Int } ∷ []; key = 0 })))) }
    ensures kept { IfOk result (λ made. IfSome made (λ tables. HoldsKept tables empty)) }
{
    let mut tables = PagedTables::new(alloc)?;
    match tables.create(alloc, &schema(alloc)?)? {
        Ok(()) => Ok(Some(tables)),
        Err(_) => Ok(None),
    }
}

fn change(alloc: Global, number: i64) -> Result<Change, WantOfMemory>
    ensures { IfOk result (λ c. c ≡ record { table = codes "t"; key = key_bytes (Value.Int number); row = Some (Value.Int number ∷ []) }) }
{
    let mut row = Row::new(alloc);
    row.push(Value::Int(number))?;
    Ok(Change {
        table: name(alloc)?,
        key: key(alloc, number)?,
        row: Some(row),
    })
}

/// The same with a row.
fn with_row(alloc: Global, number: i64) -> Result<Option<PagedTables>, WantOfMemory>
    ensures now { IfOk result (λ made. IfSome made (λ tables. (d : Database) × HoldsNow tables d)) }
    ensures kept { IfOk result (λ made. IfSome made (λ tables. HoldsKept tables empty)) }
{
    let Some(mut tables) = with_table(alloc)? else {
        return Ok(None);
    };
    match tables.change(alloc, &change(alloc, number)?)? {
        Ok(()) => Ok(Some(tables)),
        Err(_) => Ok(None),
    }
}

/// How many rows it has, where it is there.
fn count(alloc: Global, tables: &PagedTables) -> Result<Option<usize>, WantOfMemory>
    requires { (d : Database) × HoldsNow tables.now d }
{
    let all = KeyRange {
        low: None,
        high: None,
    };
    match tables.schema(alloc, &name(alloc)?)? {
        None => Ok(None),
        Some(schema) => Ok(Some(tables.rows(alloc, &schema, &all)?.len())),
    }
}

#[test]
fn a_row_is_found_until_it_is_given_back(rt: HostRuntime) -> Result<(), Fail> {
    let alloc = rt.alloc();
    let mut tables = with_row(alloc, -7)?.ok_or("no room")?;
    tables.rules();
    assert_eq!(rt; count(alloc, &tables)?, Some(1));
    assert_eq!(rt; tables.log().len(), 79);
    tables.give_back();
    assert_eq!(rt; count(alloc, &tables)?, None);
    Ok(())
}

#[test]
fn a_table_is_kept(rt: HostRuntime) -> Result<(), Fail> {
    let alloc = rt.alloc();
    let mut tables = with_table(alloc)?.ok_or("no room")?;
    tables.keep();
    assert!(rt; tables.log().len() > 79);
    tables.give_back();
    assert_eq!(rt; count(alloc, &tables)?, Some(0));
    Ok(())
}
