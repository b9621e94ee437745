ghost use Rattle.std.specs.Prelude.{◌≡◌, ◌≤◌, ◌<◌, ◌+◌, [], length, drop, slice_get, IfOk, MatchOption, None, Some, option_map};
ghost use Rattle.row_codec.specs.Records.{OneRow};
ghost use Rattle.row_codec.specs.Reading.{read_cell, read_int, read_text, read_key, read_onto, read_row, whole, IsRowOrNone};

use rm_base::{
    Bytes, MAX_KEY_BYTES, MAX_RECORD_BYTES, RECORD_OVERHEAD_BYTES, WantOfMemory, get_u16, get_u64,
};
use sql_values::{Column, Row, Schema, Sort, Value};
use std::alloc::Global;

/// The row of the schema whose leaf item has this key and this value. None exactly where there is none.
pub fn row_of(
    alloc: Global,
    schema: &Schema,
    key: &[u8],
    value: &[u8],
) -> Result<Option<Row>, WantOfMemory>
    ensures { IfOk result (IsRowOrNone schema.now key.now value.now) }
{
    let at = usize::from(schema.key);
    let columns = schema.columns.as_slice();
    if at >= columns.len() || key.len() > MAX_KEY_BYTES {
        return Ok(None);
    }
    if value.len() > MAX_RECORD_BYTES - RECORD_OVERHEAD_BYTES - key.len() {
        return Ok(None);
    }
    let sort = columns[at].sort;
    row_in(alloc, columns, at, sort, key, value)
}

/// A key and a value are those of one row alone, so what was spelled is what is read. It does nothing
/// when it is run.
#[tactic(auto, using(crate::proofs::ReadingLaws::one_row))]
pub fn row_laws()
    ensures { OneRow }
{}

/// The row of the columns, without a look at the limits.
fn row_in(
    alloc: Global,
    columns: &[Column],
    at: usize,
    sort: Sort,
    key: &[u8],
    value: &[u8],
) -> Result<Option<Row>, WantOfMemory>
    requires { at < length columns.now }
    ensures { IfOk result (λ row. row ≡ read_row columns.now at sort key.now value.now) }
{
    let mut row = Row::new(alloc);
    let Some(read) = append_cells(alloc, &mut row, &columns[..at], value)? else {
        return Ok(None);
    };
    let Some(key) = key_in(alloc, sort, key)? else {
        return Ok(None);
    };
    row.push(key)?;
    let rest = &value[read..];
    let Some(last) = append_cells(alloc, &mut row, &columns[at + 1..], rest)? else {
        return Ok(None);
    };
    Ok(finished(row, &rest[last..]))
}

/// The row, where no byte is left.
fn finished(row: Row, left: &[u8]) -> Option<Row>
    ensures { result ≡ whole (Some (row, left.now)) }
{
    match left {
        [] => Some(row),
        [_, ..] => None,
    }
}

/// Puts the cells of the columns after those of the row, and says how many bytes they took. None where
/// the bytes are no such cells; then the row has some of them.
fn append_cells(
    alloc: Global,
    row: &mut Row,
    columns: &[Column],
    bytes: &[u8],
) -> Result<Option<usize>, WantOfMemory>
    ensures { IfOk result (λ read. MatchOption read (read_onto row.old columns.now bytes.now ≡ None) (λ n. (n ≤ length bytes.now) × (read_onto row.old columns.now bytes.now ≡ Some (row.new, drop n bytes.now)))) }
{
    let mut at = 0usize;
    for column in columns {
        let Some((cell, n)) = cell_in(alloc, column.sort, &bytes[at..])? else {
            return Ok(None);
        };
        row.push(cell)?;
        at += n;
    }
    Ok(Some(at))
}

/// The cell at the start of the bytes, and its length.
fn cell_in(alloc: Global, sort: Sort, bytes: &[u8]) -> Result<Option<(Value, usize)>, WantOfMemory>
    ensures cell { IfOk result (λ read. read ≡ read_cell sort bytes.now) }
    ensures bound { IfOk result (λ read. MatchOption read (Unit {0}) (λ r. r.1 ≤ length bytes.now)) }
{
    let Some((tag, rest)) = bytes.split_first() else {
        return Ok(None);
    };
    match *tag {
        0 => Ok(Some((Value::Null, 1))),
        1 => Ok(int_in(sort, rest)),
        2 => text_in(alloc, sort, rest),
        _ => Ok(None),
    }
}

fn int_in(sort: Sort, rest: &[u8]) -> Option<(Value, usize)>
    ensures cell { result ≡ read_int sort rest.now }
    ensures bound { MatchOption result (Unit {0}) (λ r. r.1 ≤ length rest.now + 1) }
{
    if sort != Sort::Int || rest.len() < 8 {
        return None;
    }
    Some((Value::Int(get_u64(rest, 0).cast_signed()), 9))
}

fn text_in(alloc: Global, sort: Sort, rest: &[u8]) -> Result<Option<(Value, usize)>, WantOfMemory>
    ensures cell { IfOk result (λ read. read ≡ read_text sort rest.now) }
    ensures bound { IfOk result (λ read. MatchOption read (Unit {0}) (λ r. r.1 ≤ length rest.now + 1)) }
{
    if sort != Sort::Text || rest.len() < 2 {
        return Ok(None);
    }
    let n = usize::from(get_u16(rest, 0));
    if rest.len() < 2 + n {
        return Ok(None);
    }
    let mut text = Bytes::new(alloc);
    text.append(&rest[2..2 + n])?;
    Ok(Some((Value::Text(text), 3 + n)))
}

/// The value of the sort that has these key bytes. None exactly for an INT whose key is not 8 bytes long.
pub fn key_in(alloc: Global, sort: Sort, key: &[u8]) -> Result<Option<Value>, WantOfMemory>
    ensures { IfOk result (λ value. value ≡ read_key sort key.now) }
{
    match sort {
        Sort::Int => {
            if key.len() != 8 {
                return Ok(None);
            }
            Ok(
                i64::MIN
                    .checked_add_unsigned(get_u64(key, 0))
                    .map(Value::Int),
            )
        }
        Sort::Text => {
            let mut text = Bytes::new(alloc);
            text.append(key)?;
            Ok(Some(Value::Text(text)))
        }
    }
}
