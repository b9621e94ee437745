ghost use Rattle.std.specs.Prelude.{◌≡◌, IfOk, length, slice_set};
ghost use Rattle.std.specs.List.{list_any};
ghost use Rattle.row_codec.specs.Records.{key_cell};
ghost use Rattle.sql_exec.specs.Answer.{deletes, inserted, inserts, outcome_of, placed_rows, updates};
ghost use Rattle.sql_database.specs.Answers.{wants};
ghost use Rattle.sql_exec.specs.Changes.{first_repeat, keys_of, placing, removal};
ghost use Rattle.sql_exec.specs.Kept.{each, set_all};
ghost use Rattle.sql_exec.specs.Totals as totals;

use crate::changes::{place_row, remove_row};
use crate::keeping::{all_values, kept};
use crate::keys::repeat;
use crate::outcomes::{Outcome, Repeated};
use crate::totals::is_null;
use rm_base::{Duplicate, WantOfMemory};
use row_codec::TooLarge;
use sql_database::{Changes, SqlReply};
use sql_meaning::{Resolved, ResolvedRows, SetPlaces};
use sql_values::{Overflow, Row, Rows, Schema, Value};
use std::alloc::Global;

/// The outcome of an INSERT over the rows that have a tuple's key.
pub fn insert(
    alloc: Global,
    schema: &Schema,
    there: &Rows,
    tuples: &ResolvedRows,
) -> Result<Outcome, WantOfMemory>
    ensures { IfOk result (λ o. o ≡ outcome_of (inserts schema.now there.now tuples.now)) }
{
    match all_values(alloc, tuples)? {
        Ok(rows) => insert_rows(alloc, schema, there, &rows),
        Err(Overflow) => Ok(Outcome::Refused(SqlReply::Overflow)),
    }
}

fn insert_rows(
    alloc: Global,
    schema: &Schema,
    there: &Rows,
    rows: &Rows,
) -> Result<Outcome, WantOfMemory>
    ensures { IfOk result (λ o. o ≡ outcome_of (inserted schema.now there.now rows.now)) }
{
    let key = usize::from(schema.key);
    if has_null_key(rows, key) {
        return Ok(Outcome::Refused(SqlReply::NullKey));
    }
    match place_all(alloc, schema, rows)? {
        Ok(changes) => unless_repeated(alloc, key, there, rows, changes),
        Err(_) => Ok(Outcome::Refused(SqlReply::TooLarge)),
    }
}

fn unless_repeated(
    alloc: Global,
    key: usize,
    there: &Rows,
    rows: &Rows,
    changes: Changes,
) -> Result<Outcome, WantOfMemory>
    ensures { IfOk result (λ o. o ≡ outcome_of (wants changes (length rows.now) (first_repeat (keys_of key there.now) (keys_of key rows.now)))) }
{
    let seen = all_keys(alloc, there, key)?;
    let keys = all_keys(alloc, rows, key)?;
    match repeat(alloc, seen, &keys)? {
        Some(key) => Ok(Outcome::Duplicate(Repeated { changes, key })),
        None => Ok(Outcome::Changes(changes)),
    }
}

fn has_null_key(rows: &Rows, key: usize) -> bool
    ensures { result ≡ list_any (λ r. totals.is_null (key_cell key r)) rows.now }
{
    rows.as_slice().iter().any(|row| is_null_at(row, key))
}

fn is_null_at(row: &Row, key: usize) -> bool
    ensures { result ≡ totals.is_null (key_cell key row.now) }
{
    match row.as_slice().get(key) {
        Some(value) => is_null(value),
        None => true,
    }
}

fn all_keys(alloc: Global, rows: &Rows, key: usize) -> Result<Row, WantOfMemory>
    ensures { IfOk result (λ r. r ≡ keys_of key rows.now) }
{
    let mut keys = Row::new(alloc);
    for row in rows.as_slice() {
        keys.push(cell(alloc, row, key)?)?;
    }
    Ok(keys)
}

fn cell(alloc: Global, row: &Row, place: usize) -> Result<Value, WantOfMemory>
    ensures { IfOk result (λ v. v ≡ key_cell place row.now) }
{
    match row.as_slice().get(place) {
        Some(value) => value.copy(alloc),
        None => Ok(Value::Null),
    }
}

/// The outcome of an UPDATE over its table's rows. SET reads the old row.
pub fn update(
    alloc: Global,
    schema: &Schema,
    there: &Rows,
    sets: &SetPlaces,
    test: &Option<Resolved>,
) -> Result<Outcome, WantOfMemory>
    ensures { IfOk result (λ o. o ≡ outcome_of (updates schema.now there.now sets.now test.now)) }
{
    match kept(alloc, test, there)? {
        Ok(rows) => match set_rows(alloc, &rows, sets)? {
            Ok(rows) => place_outcome(alloc, schema, &rows),
            Err(_) => Ok(Outcome::Refused(SqlReply::Overflow)),
        },
        Err(_) => Ok(Outcome::Refused(SqlReply::Overflow)),
    }
}

fn place_outcome(alloc: Global, schema: &Schema, rows: &Rows) -> Result<Outcome, WantOfMemory>
    ensures { IfOk result (λ o. o ≡ outcome_of (placed_rows schema.now rows.now)) }
{
    match place_all(alloc, schema, rows)? {
        Ok(changes) => Ok(Outcome::Changes(changes)),
        Err(_) => Ok(Outcome::Refused(SqlReply::TooLarge)),
    }
}

fn set_rows(
    alloc: Global,
    rows: &Rows,
    sets: &SetPlaces,
) -> Result<Result<Rows, Overflow>, WantOfMemory>
    ensures { IfOk result (λ r. r ≡ each (λ row. set_all row row sets.now) rows.now) }
{
    let mut after = Rows::new(alloc);
    for row in rows.as_slice() {
        match set_row(alloc, row, sets)? {
            Ok(row) => after.push(row)?,
            Err(overflow) => return Ok(Err(overflow)),
        }
    }
    Ok(Ok(after))
}

/// The row with each column of SET set to its value in the old row.
fn set_row(
    alloc: Global,
    old: &Row,
    sets: &SetPlaces,
) -> Result<Result<Row, Overflow>, WantOfMemory>
    ensures { IfOk result (λ r. r ≡ set_all old.now old.now sets.now) }
{
    let mut row = old.copy(alloc)?;
    for set in sets.as_slice() {
        match set.value.value(alloc, old.as_slice())? {
            Ok(value) => row = with_cell(row, set.place, value),
            Err(overflow) => return Ok(Err(overflow)),
        }
    }
    Ok(Ok(row))
}

fn with_cell(row: Row, place: usize, value: Value) -> Row
    ensures { result ≡ slice_set row place value }
{
    let mut cells = row.into_vec();
    if let Some(cell) = cells.get_mut(place) {
        *cell = value;
    }
    Row::from_vec(cells)
}

/// The outcome of a DELETE over its table's rows.
pub fn delete(
    alloc: Global,
    schema: &Schema,
    there: &Rows,
    test: &Option<Resolved>,
) -> Result<Outcome, WantOfMemory>
    ensures { IfOk result (λ o. o ≡ outcome_of (deletes schema.now there.now test.now)) }
{
    match kept(alloc, test, there)? {
        Ok(rows) => match remove_all(alloc, schema, &rows)? {
            Ok(changes) => Ok(Outcome::Changes(changes)),
            Err(_) => Ok(Outcome::Refused(SqlReply::TooLarge)),
        },
        Err(_) => Ok(Outcome::Refused(SqlReply::Overflow)),
    }
}

fn place_all(
    alloc: Global,
    schema: &Schema,
    rows: &Rows,
) -> Result<Result<Changes, TooLarge>, WantOfMemory>
    ensures { IfOk result (λ r. r ≡ each (placing schema.now) rows.now) }
{
    let mut changes = Changes::new(alloc);
    for row in rows.as_slice() {
        match place_row(alloc, schema, row)? {
            Ok(change) => changes.push(change)?,
            Err(large) => return Ok(Err(large)),
        }
    }
    Ok(Ok(changes))
}

fn remove_all(
    alloc: Global,
    schema: &Schema,
    rows: &Rows,
) -> Result<Result<Changes, TooLarge>, WantOfMemory>
    ensures { IfOk result (λ r. r ≡ each (removal schema.now) rows.now) }
{
    let mut changes = Changes::new(alloc);
    for row in rows.as_slice() {
        match remove_row(alloc, schema, row)? {
            Ok(change) => changes.push(change)?,
            Err(large) => return Ok(Err(large)),
        }
    }
    Ok(Ok(changes))
}
