ghost use Rattle.std.specs.Prelude.{◌≡◌, ◌≤◌, IfOk, length};
ghost use Rattle.std.specs.Result.{OkIff};
ghost use Rattle.row_codec.specs.Keys.{key_bytes};
ghost use Rattle.row_codec.specs.Records.{fits_record, key_cell};
ghost use Rattle.sql_exec.specs.Changes.{placing, removal};

use rm_base::{Bytes, Duplicate, MAX_KEY_BYTES, WantOfMemory};
use row_codec::{TooLarge, fits_record, key_of};
use sql_database::Change;
use sql_values::{Row, Schema, Value};
use std::alloc::Global;

/// The change that makes the row stand under its key. Refused exactly where its key or its leaf record is
/// too large.
#[tactic(auto, unfolding(crate::specs::Changes::placing))]
pub fn place_row(
    alloc: Global,
    schema: &Schema,
    row: &Row,
) -> Result<Result<Change, TooLarge>, WantOfMemory>
    ensures { IfOk result (λ r. r ≡ placing schema.now row.now) }
{
    let place = usize::from(schema.key);
    match bytes_at(alloc, row.as_slice(), place)? {
        Ok(key) if fits_record(place, row.as_slice()) => Ok(Ok(Change {
            table: schema.table.copy(alloc)?,
            key,
            row: Some(row.copy(alloc)?),
        })),
        _ => Ok(Err(TooLarge)),
    }
}

/// The change that leaves no row under the row's key. Refused exactly where the key is too large.
#[tactic(auto, unfolding(crate::specs::Changes::removal))]
pub fn remove_row(
    alloc: Global,
    schema: &Schema,
    row: &Row,
) -> Result<Result<Change, TooLarge>, WantOfMemory>
    ensures { IfOk result (λ r. r ≡ removal schema.now row.now) }
{
    match bytes_at(alloc, row.as_slice(), usize::from(schema.key))? {
        Ok(key) => Ok(Ok(Change {
            table: schema.table.copy(alloc)?,
            key,
            row: None,
        })),
        Err(large) => Ok(Err(large)),
    }
}

/// The key bytes of the cell there.
fn bytes_at(
    alloc: Global,
    row: &[Value],
    place: usize,
) -> Result<Result<Bytes, TooLarge>, WantOfMemory>
    ensures { IfOk result (λ r. OkIff r (length (key_bytes (key_cell place row.now)) ≤ MAX_KEY_BYTES) (key_bytes (key_cell place row.now))) }
{
    match row.get(place) {
        None | Some(Value::Null) => Ok(Ok(Bytes::new(alloc))),
        Some(value) => key_of(alloc, value),
    }
}
