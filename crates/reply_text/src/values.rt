//! Values and rows as text.
ghost use Rattle.std.specs.Prelude.{◌≡◌, ◌++◌, ◌∷◌, [], OnOk, flat_map};
ghost use Rattle.sql_words.specs.Tokens.{doubled, quoted};
ghost use Rattle.reply_text.specs.Texts as spec;

use rm_base::{Text, WantOfMemory};
use sql_values::Value;
use std::alloc::Global;

const QUOTE: u8 = b'\'';

/// A byte of a text, a quote twice.
fn append_doubled(out: &mut Text, byte: u8) -> Result<(), WantOfMemory>
    ensures { OnOk result (out.new ≡ out.old ++ doubled (byte ∷ [])) }
{
    if byte == QUOTE {
        out.push(QUOTE)?;
    }
    out.push(byte)
}

fn append_content(out: &mut Text, bytes: &[u8]) -> Result<(), WantOfMemory>
    ensures { OnOk result (out.new ≡ out.old ++ doubled bytes.now) }
{
    for byte in bytes {
        append_doubled(out, *byte)?;
    }
    Ok(())
}

/// A text in quotes, each quote in it twice.
fn append_quoted(out: &mut Text, bytes: &[u8]) -> Result<(), WantOfMemory>
    ensures { OnOk result (out.new ≡ out.old ++ quoted bytes.now) }
{
    out.push(QUOTE)?;
    append_content(out, bytes)?;
    out.push(QUOTE)
}

pub(crate) fn append_value(alloc: Global, out: &mut Text, value: &Value) -> Result<(), WantOfMemory>
    ensures { OnOk result (out.new ≡ out.old ++ spec.value_text value.now) }
{
    match value {
        Value::Null => out.append(b"NULL"),
        Value::Int(number) => out.append(format!(in alloc; "{number}")?.as_bytes()),
        Value::Text(text) => append_quoted(out, text.as_slice()),
    }
}

fn append_behind_comma(alloc: Global, out: &mut Text, value: &Value) -> Result<(), WantOfMemory>
    ensures { OnOk result (out.new ≡ out.old ++ spec.behind_comma value.now) }
{
    out.append(b", ")?;
    append_value(alloc, out, value)
}

fn append_others(alloc: Global, out: &mut Text, values: &[Value]) -> Result<(), WantOfMemory>
    ensures { OnOk result (out.new ≡ out.old ++ flat_map spec.behind_comma values.now) }
{
    for value in values {
        append_behind_comma(alloc, out, value)?;
    }
    Ok(())
}

/// Values with a comma and a space between.
pub(crate) fn append_row(alloc: Global, out: &mut Text, row: &[Value]) -> Result<(), WantOfMemory>
    ensures { OnOk result (out.new ≡ out.old ++ spec.row_text row.now) }
{
    match row {
        [] => Ok(()),
        [first, others @ ..] => {
            append_value(alloc, out, first)?;
            append_others(alloc, out, others)
        }
    }
}
