//! Replies as lines.
ghost use Rattle.std.specs.Prelude.{◌≡◌, ◌++◌, ◌∷◌, [], OnOk, IfOk, decimal, flat_map};
ghost use Rattle.reply_text.specs.Texts as spec;

use crate::values::{append_row, append_value};
use rm_base::{Text, WantOfMemory};
use sql_database::SqlReply;
use sql_values::Row;
use std::alloc::Global;

const LINE_END: u8 = b'\n';

fn append_decimal(alloc: Global, out: &mut Text, number: u64) -> Result<(), WantOfMemory>
    ensures { OnOk result (out.new ≡ out.old ++ decimal number) }
{
    out.append(format!(in alloc; "{number}")?.as_bytes())
}

/// Words, and a number behind them.
pub(crate) fn append_number(
    alloc: Global,
    out: &mut Text,
    words: &[u8],
    number: u64,
) -> Result<(), WantOfMemory>
    ensures { OnOk result (out.new ≡ out.old ++ (words.now ++ decimal number)) }
{
    out.append(words)?;
    append_decimal(alloc, out, number)
}

/// The words that a reply's last line begins with.
#[tactic(auto, unfolding(crate::specs::Texts::words_of))]
fn words_of(reply: &SqlReply) -> &'static [u8]
    ensures { result.now ≡ spec.words_of reply.now }
{
    match reply {
        SqlReply::Ok(_) => b"ok ",
        SqlReply::Rows(_) => b"rows ",
        SqlReply::Syntax(_) => b"error syntax at ",
        SqlReply::NoTable(_) => b"error no table ",
        SqlReply::TableExists(_) => b"error table exists ",
        SqlReply::NoColumn(_) => b"error no column ",
        SqlReply::WrongType => b"error wrong type",
        SqlReply::NullKey => b"error null key",
        SqlReply::Duplicate(_) => b"error duplicate ",
        SqlReply::Overflow => b"error overflow",
        SqlReply::TooLarge => b"error too large",
        SqlReply::ReadOnly => b"error read only",
        SqlReply::NoTransaction => b"error no transaction",
        SqlReply::InTransaction => b"error in transaction",
        SqlReply::Conflict(_) => b"error conflict ",
        SqlReply::Lost => b"error lost",
        SqlReply::Unavailable => b"error unavailable",
        SqlReply::PoolFull(_) => b"error pool full ",
        SqlReply::SpaceFull => b"error space full",
        SqlReply::TrxFull => b"error trx full",
    }
}

/// The number, name or value behind the words.
#[tactic(auto, unfolding(crate::specs::Texts::rest_of))]
fn append_rest(alloc: Global, out: &mut Text, reply: &SqlReply) -> Result<(), WantOfMemory>
    ensures { OnOk result (out.new ≡ out.old ++ spec.rest_of reply.now) }
{
    match reply {
        SqlReply::Ok(n) => append_decimal(alloc, out, *n),
        SqlReply::Rows(rows) => append_decimal(alloc, out, rows.len() as u64),
        SqlReply::Syntax(at) => append_decimal(alloc, out, *at as u64),
        SqlReply::NoTable(table) | SqlReply::TableExists(table) => out.append(table.as_slice()),
        SqlReply::NoColumn(column) => out.append(column.as_slice()),
        SqlReply::Duplicate(key) | SqlReply::Conflict(key) => append_value(alloc, out, key),
        SqlReply::PoolFull(slots) => append_decimal(alloc, out, u64::from(*slots)),
        _ => Ok(()),
    }
}

fn append_last(alloc: Global, out: &mut Text, reply: &SqlReply) -> Result<(), WantOfMemory>
    ensures { OnOk result (out.new ≡ out.old ++ spec.last_text reply.now) }
{
    out.append(words_of(reply))?;
    append_rest(alloc, out, reply)
}

/// A row's line, with what stands before it. The line ends in LF.
pub fn row_line(alloc: Global, before: &[u8], row: &Row) -> Result<Text, WantOfMemory>
    ensures { IfOk result (λ text. text ≡ spec.row_line before.now row.now) }
{
    let mut out = Text::new(alloc);
    append_row_line(alloc, &mut out, before, row)?;
    Ok(out)
}

fn append_row_line(
    alloc: Global,
    out: &mut Text,
    before: &[u8],
    row: &Row,
) -> Result<(), WantOfMemory>
    ensures { OnOk result (out.new ≡ out.old ++ spec.row_line before.now row.now) }
{
    out.append(before)?;
    append_row(alloc, out, row.as_slice())?;
    out.push(LINE_END)
}

/// The last line of a reply, and the only one of a reply without rows, with what stands before it.
pub fn last_line(alloc: Global, before: &[u8], reply: &SqlReply) -> Result<Text, WantOfMemory>
    ensures { IfOk result (λ text. text ≡ spec.last_line before.now reply.now) }
{
    let mut out = Text::new(alloc);
    append_last_line(alloc, &mut out, before, reply)?;
    Ok(out)
}

fn append_last_line(
    alloc: Global,
    out: &mut Text,
    before: &[u8],
    reply: &SqlReply,
) -> Result<(), WantOfMemory>
    ensures { OnOk result (out.new ≡ out.old ++ spec.last_line before.now reply.now) }
{
    out.append(before)?;
    append_last(alloc, out, reply)?;
    out.push(LINE_END)
}

/// The rows that a reply has.
#[tactic(auto, unfolding(crate::specs::Texts::rows_of))]
pub fn rows_of(reply: &SqlReply) -> &[Row]
    ensures { result.now ≡ spec.rows_of reply.now }
{
    match reply {
        SqlReply::Rows(rows) => rows.as_slice(),
        _ => &[],
    }
}

fn append_rows(
    alloc: Global,
    out: &mut Text,
    before: &[u8],
    rows: &[Row],
) -> Result<(), WantOfMemory>
    ensures { OnOk result (out.new ≡ out.old ++ flat_map (spec.row_line before.now) rows.now) }
{
    for row in rows {
        append_row_line(alloc, out, before, row)?;
    }
    Ok(())
}

fn append_reply(
    alloc: Global,
    out: &mut Text,
    before: &[u8],
    reply: &SqlReply,
) -> Result<(), WantOfMemory>
    ensures { OnOk result (out.new ≡ out.old ++ spec.reply_text before.now reply.now) }
{
    append_rows(alloc, out, before, rows_of(reply))?;
    append_last_line(alloc, out, before, reply)
}

/// All lines of a reply, with what stands before each.
pub fn reply_text(alloc: Global, before: &[u8], reply: &SqlReply) -> Result<Text, WantOfMemory>
    ensures { IfOk result (λ text. text ≡ spec.reply_text before.now reply.now) }
{
    let mut out = Text::new(alloc);
    append_reply(alloc, &mut out, before, reply)?;
    Ok(out)
}
