ghost use Rattle.std.specs.Prelude.{◌≡◌, ◌≤◌, ◌+◌, ◌-◌, ◌^◌, length, min, take, drop};
ghost use Rattle.row_codec.specs.Keys.{key_bytes};
ghost use Rattle.row_codec.specs.Records.{cell_bytes, cells_bytes, fits_record, key_cell, record_length, value_bytes};

use rm_base::{MAX_RECORD_BYTES, RECORD_OVERHEAD_BYTES};
use sql_values::Value;

/// Whether the leaf item of a row of these cells, whose key is the one at that place, is not too large.
pub fn fits_record(key: usize, cells: &[Value]) -> bool
    ensures { result ≡ fits_record key cells.now }
{
    let at = key.min(cells.len());
    let before = cells_length(&cells[..at]);
    let after = cells_length(&cells[(key.saturating_add(1)).min(cells.len())..]);
    RECORD_OVERHEAD_BYTES
        .saturating_add(key_length(cells, key))
        .saturating_add(before)
        .saturating_add(after)
        <= MAX_RECORD_BYTES
}

#[tactic(auto, using(crate::proofs::SpellingLaws::field_length))]
fn key_length(cells: &[Value], key: usize) -> usize
    ensures { result ≡ length (key_bytes (key_cell key cells.now)) }
{
    match cells.get(key) {
        None | Some(Value::Null) => 0,
        Some(Value::Int(_)) => 8,
        Some(Value::Text(text)) => text.len(),
    }
}

/// The bytes of the cells, or the last usize where they are more.
fn cells_length(cells: &[Value]) -> usize
    ensures { result ≡ min (length (cells_bytes cells.now)) (2 ^ 64 - 1) }
{
    let mut total = 0usize;
    for cell in cells {
        total = total.saturating_add(cell_length(cell));
    }
    total
}

#[tactic(auto, using(crate::proofs::SpellingLaws::field_length))]
fn cell_length(cell: &Value) -> usize
    ensures { result ≡ min (length (cell_bytes cell.now)) (2 ^ 64 - 1) }
{
    match cell {
        Value::Null => 1,
        Value::Int(_) => 9,
        Value::Text(text) => text.len().saturating_add(3),
    }
}
