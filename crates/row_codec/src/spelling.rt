ghost use Rattle.std.specs.Prelude.{◌≡◌, ◌≤◌, ◌<◌, ◌+◌, ◌++◌, length, IfOk, OnOk, OnErr, take, drop};
ghost use Rattle.std.specs.Result.{OkIff};
ghost use Rattle.row_codec.specs.Keys.{key_bytes};
ghost use Rattle.row_codec.specs.Records.{cell_bytes, cells_bytes, value_bytes, key_cell, record_length, FitsSchema};

use crate::TooLarge;
use crate::lengths::fits_record;
use rm_base::{Bytes, MAX_RECORD_BYTES, WantOfMemory, put_u16, put_u64};
use sql_values::{Row, Schema, Value};
use std::alloc::Global;

/// The value of a row's leaf item: the cells of all columns but the key, in order. Refused exactly where
/// the item would pass 1,000 bytes.
pub fn value_of(
    alloc: Global,
    schema: &Schema,
    row: &Row,
) -> Result<Result<Bytes, TooLarge>, WantOfMemory>
    requires { FitsSchema schema.now row.now }
    ensures { IfOk result (λ value. OkIff value (record_length (key_bytes (key_cell schema.now.key row.now)) (value_bytes schema.now.key row.now) ≤ MAX_RECORD_BYTES) (value_bytes schema.now.key row.now)) }
{
    let key = usize::from(schema.key);
    let cells = row.as_slice();
    if !fits_record(key, cells) {
        return Ok(Err(TooLarge));
    }
    let mut value = Bytes::new(alloc);
    append_cells(&mut value, &cells[..key])?;
    append_cells(&mut value, &cells[key + 1..])?;
    Ok(Ok(value))
}

fn append_cells(value: &mut Bytes, cells: &[Value]) -> Result<(), WantOfMemory>
    requires { length (cells_bytes cells.now) ≤ MAX_RECORD_BYTES }
    ensures { OnOk result (value.new ≡ value.old ++ cells_bytes cells.now) }
{
    for cell in cells {
        append_cell(value, cell)?;
    }
    Ok(())
}

fn append_cell(value: &mut Bytes, cell: &Value) -> Result<(), WantOfMemory>
    requires { length (cell_bytes cell.now) ≤ MAX_RECORD_BYTES }
    ensures { OnOk result (value.new ≡ value.old ++ cell_bytes cell.now) }
{
    match cell {
        Value::Null => value.push(0)?,
        Value::Int(number) => {
            let mut bytes = [1u8, 0, 0, 0, 0, 0, 0, 0, 0];
            put_u64(&mut bytes, 1, number.cast_unsigned());
            value.append(&bytes)?;
        }
        Value::Text(text) => {
            let mut head = [2u8, 0, 0];
            put_u16(&mut head, 1, text.len() as u16);
            value.append(&head)?;
            value.append(text.as_slice())?;
        }
    }
    Ok(())
}
