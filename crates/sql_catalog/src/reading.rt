ghost use Rattle.std.specs.Prelude.{◌≡◌, ℕ, IfOk, MatchOption};
ghost use Rattle.sql_values.specs.Tables.{IsName, IsTable};
ghost use Rattle.sql_values.specs.declared.schemas.Schema.{Schema};
ghost use Rattle.sql_catalog.specs.Catalog.{IsTableOrNone, IsColumnOrNone, AreColumnsOrNone, OneTable, AreBounded, schema_bytes, sort_number};

use crate::tables::is_table;
use rm_base::{Bytes, Name, PageId, WantOfMemory, get_u32};
use sql_values::{Column, Columns, Row, Schema, Sort, Value};
use std::alloc::Global;

/// The table of a row of the catalog, and the page of its tree's root. None exactly where the row is none
/// of the catalog.
pub fn schema_of(alloc: Global, row: &Row) -> Result<Option<(Schema, PageId)>, WantOfMemory>
    ensures { IfOk result (IsTableOrNone row.now) }
{
    match row.as_slice() {
        [Value::Text(table), Value::Text(bytes)] => schema_in(
            alloc,
            table.as_slice(),
            bytes.as_slice(),
        ),
        _ => Ok(None),
    }
}

/// A row is that of one table and root alone, so what `row_for` spells is what is read. It does nothing when
/// it is run.
#[tactic(auto, using(crate::proofs::Spelled::one_table))]
pub fn catalog_laws()
    ensures { OneTable }
{}

fn schema_in(
    alloc: Global,
    table: &[u8],
    bytes: &[u8],
) -> Result<Option<(Schema, PageId)>, WantOfMemory>
    ensures { IfOk result (λ found. MatchOption found
        ((s : Schema) (root : ℕ) → IsTable s → AreBounded s root → table.now ≡ s.table → ¬ (bytes.now ≡ schema_bytes s root))
        (λ f. IsTable f.0 × AreBounded f.0 f.1 × (table.now ≡ f.0.table) × (bytes.now ≡ schema_bytes f.0 f.1))) }
{
    if bytes.len() < 6 {
        return Ok(None);
    }
    let Some(root) = PageId::new(get_u32(bytes, 0)) else {
        return Ok(None);
    };
    let Some(table) = name_of(alloc, table)? else {
        return Ok(None);
    };
    let Some(columns) = columns_in(alloc, usize::from(bytes[5]), &bytes[6..])? else {
        return Ok(None);
    };
    let schema = Schema {
        table,
        columns,
        key: bytes[4],
    };
    if !is_table(&schema) {
        return Ok(None);
    }
    Ok(Some((schema, root)))
}

/// So many columns, where the bytes are these and no more.
fn columns_in(alloc: Global, count: usize, bytes: &[u8]) -> Result<Option<Columns>, WantOfMemory>
    ensures { IfOk result (AreColumnsOrNone bytes.now count) }
{
    let mut columns = Columns::new(alloc);
    let mut at = 0usize;
    for _ in 0..count {
        let Some((column, read)) = column_in(alloc, &bytes[at..])? else {
            return Ok(None);
        };
        columns.push(column)?;
        at += read;
    }
    if at < bytes.len() {
        return Ok(None);
    }
    Ok(Some(columns))
}

/// The column at the start of the bytes, and its length.
fn column_in(alloc: Global, bytes: &[u8]) -> Result<Option<(Column, usize)>, WantOfMemory>
    ensures { IfOk result (IsColumnOrNone bytes.now) }
{
    let Some((length, rest)) = bytes.split_first() else {
        return Ok(None);
    };
    let length = usize::from(*length);
    if rest.len() <= length {
        return Ok(None);
    }
    let Some(sort) = sort_of(rest[length]) else {
        return Ok(None);
    };
    let Some(name) = name_of(alloc, &rest[..length])? else {
        return Ok(None);
    };
    Ok(Some((Column { name, sort }, 2 + length)))
}

fn sort_of(number: u8) -> Option<Sort>
    ensures { MatchOption result ((s : _) → ¬ (number ≡ sort_number s)) (λ s. number ≡ sort_number s) }
{
    match number {
        1 => Some(Sort::Int),
        2 => Some(Sort::Text),
        _ => None,
    }
}

fn name_of(alloc: Global, bytes: &[u8]) -> Result<Option<Name>, WantOfMemory>
    ensures { IfOk result (λ name. MatchOption name (¬ IsName bytes.now) (λ n. IsName n × (n ≡ bytes.now))) }
{
    let mut text = Bytes::new(alloc);
    text.append(bytes)?;
    Ok(Name::new(text))
}
