//! The ranges of statements, as texts: the bytes of each end in hexadecimal digits.
use crate::plain::Plain;
use crate::running::repeated;
use rm_base::{Bytes, KeyRange, Ranges, Text, WantOfMemory};
use sql_front::parse;
use sql_plan::ranges;
use sql_values::{Row, Schemas, Value};
use std::alloc::Global;
use std::process::Abort;

/// The table t with the INT key k and a TEXT, and the table u with a TEXT key.
fn two_tables(alloc: Global) -> Result<Plain, WantOfMemory> {
    let mut plain = Plain::new(alloc);
    plain.answer(alloc, b"CREATE TABLE t (k INT PRIMARY KEY, w TEXT)")?;
    plain.answer(alloc, b"CREATE TABLE u (w TEXT PRIMARY KEY, t INT)")?;
    Ok(plain)
}

fn digit(number: u8) -> u8 {
    if number < 10 {
        b'0' + number
    } else {
        b'a'.saturating_add(number - 10)
    }
}

fn append_end(text: &mut Text, end: &Option<Bytes>) -> Result<(), WantOfMemory> {
    if let Some(bytes) = end {
        for byte in bytes.as_slice() {
            text.append(&[digit(byte / 16), digit(byte % 16)])?;
        }
    }
    Ok(())
}

fn append_range(text: &mut Text, range: &KeyRange) -> Result<(), WantOfMemory> {
    append_end(text, &range.low)?;
    text.append(b"..")?;
    append_end(text, &range.high)?;
    text.append(b"\n")
}

/// A line for each range.
fn ranges_text(alloc: Global, ranges: &Ranges) -> Result<Text, WantOfMemory> {
    let mut text = Text::new(alloc);
    for range in ranges.as_slice() {
        append_range(&mut text, range)?;
    }
    Ok(text)
}

/// The ranges of the text's only or left table, or with a left row of its right table.
fn plan(
    alloc: Global,
    schemas: &Schemas,
    text: &[u8],
    left_row: Option<&Row>,
) -> Result<Ranges, WantOfMemory> {
    match parse(alloc, text)? {
        Ok(statement) => ranges(alloc, &statement, schemas, left_row),
        Err(_) => Ok(Ranges::new(alloc)),
    }
}

/// The texts have these ranges.
fn planned(rt: &impl Abort, alloc: Global, lines: &[(&str, &str)]) -> Result<(), WantOfMemory> {
    let plain = two_tables(alloc)?;
    for (text, want) in lines {
        let ranges = plan(alloc, plain.schemas(), text.as_bytes(), None)?;
        let text_of = ranges_text(alloc, &ranges)?;
        assert!(rt; text_of.as_slice() == want.as_bytes(), "at {text}");
    }
    Ok(())
}

#[test]
fn a_comparison_bounds_the_key(rt: HostRuntime) -> Result<(), WantOfMemory> {
    let lines = [
        ("DELETE FROM t", "..\n"),
        (
            "DELETE FROM t WHERE k = 5",
            "8000000000000005..8000000000000005\n",
        ),
        ("DELETE FROM t WHERE k < 5", "..8000000000000005\n"),
        ("DELETE FROM t WHERE k <= 5", "..8000000000000005\n"),
        ("UPDATE t SET w = NULL WHERE k > 5", "8000000000000005..\n"),
        ("UPDATE t SET w = NULL WHERE k >= 5", "8000000000000005..\n"),
        ("SELECT * FROM t WHERE 5 < k", "8000000000000005..\n"),
        ("SELECT * FROM t WHERE 5 >= k", "..8000000000000005\n"),
        (
            "SELECT * FROM t WHERE k = -5",
            "7ffffffffffffffb..7ffffffffffffffb\n",
        ),
        ("SELECT * FROM t WHERE k = - (5)", "..\n"),
        ("SELECT * FROM t WHERE k <> 5", "..\n"),
        ("SELECT * FROM t WHERE k = NULL", "..\n"),
        ("SELECT * FROM t WHERE NULL < k", "..\n"),
        ("SELECT * FROM u WHERE 'ab' >= w", "..6162\n"),
    ];
    planned(&rt, rt.alloc(), &lines)
}

#[test]
fn leading_conjuncts_bound_together(rt: HostRuntime) -> Result<(), WantOfMemory> {
    let lines = [
        (
            "DELETE FROM t WHERE k = 5 AND w = 'a'",
            "8000000000000005..8000000000000005\n",
        ),
        ("DELETE FROM t WHERE w = 'a' AND k = 5", "..\n"),
        (
            "DELETE FROM t WHERE k > 2 AND k > NULL AND k < 9",
            "8000000000000002..\n",
        ),
        (
            "DELETE FROM t WHERE (k > 2 AND k < 9) AND (k < 7 AND w = 'a') AND k > 5",
            "8000000000000002..8000000000000007\n",
        ),
        ("DELETE FROM t WHERE k > 2 OR k < 9", "..\n"),
        (
            "DELETE FROM t WHERE k < 2 AND k > 2",
            "8000000000000002..8000000000000002\n",
        ),
        ("DELETE FROM t WHERE k > 7 AND k < 2", ""),
    ];
    planned(&rt, rt.alloc(), &lines)
}

#[test]
fn tuples_have_ranges_and_refusals_none(rt: HostRuntime) -> Result<(), WantOfMemory> {
    let lines = [
        (
            "INSERT INTO t VALUES (4, 'a'), (NULL, 'b'), (9223372036854775807 + 1, 'c'), (2 + 1, 'd')",
            "8000000000000004..8000000000000004\n8000000000000003..8000000000000003\n",
        ),
        ("INSERT INTO u (t, w) VALUES (1, 'k')", "6b..6b\n"),
        ("SELECT * FROM x", ""),
        ("SELECT z FROM t", ""),
        ("DELETE FROM t WHERE k = 'a'", ""),
        ("CREATE TABLE y (k INT PRIMARY KEY)", ""),
        ("BEGIN", ""),
    ];
    planned(&rt, rt.alloc(), &lines)
}

/// A row of t.
fn left_row(alloc: Global, word: &str) -> Result<Row, WantOfMemory> {
    let mut row = Row::new(alloc);
    row.push(Value::Int(1))?;
    if word.is_empty() {
        row.push(Value::Null)?;
    } else {
        row.push(Value::Text(repeated(alloc, word, "", 0, "")?))?;
    }
    Ok(row)
}

/// The ranges of a join's right table, for a row of the left one.
fn right_text(alloc: Global, schemas: &Schemas, row: &Row) -> Result<Text, WantOfMemory> {
    let text = b"SELECT * FROM t JOIN u ON t.w = u.w WHERE k > 3 AND u.w < 'c'";
    let ranges = plan(alloc, schemas, text, Some(row))?;
    ranges_text(alloc, &ranges)
}

#[test]
fn a_left_row_bounds_the_right_key(rt: HostRuntime) -> Result<(), WantOfMemory> {
    let alloc = rt.alloc();
    let plain = two_tables(alloc)?;
    for (word, want) in [("b", "62..62\n"), ("d", ""), ("", "..63\n")] {
        let row = left_row(alloc, word)?;
        let text = right_text(alloc, plain.schemas(), &row)?;
        assert!(rt; text.as_slice() == want.as_bytes(), "at {word}");
    }
    Ok(())
}

#[test]
fn a_join_bounds_the_left_key(rt: HostRuntime) -> Result<(), WantOfMemory> {
    let lines = [
        (
            "SELECT * FROM t JOIN u ON u.w = t.w WHERE k > 3 AND u.w < 'c'",
            "8000000000000003..\n",
        ),
        ("SELECT * FROM t JOIN u ON u.t = t.k WHERE k > 3", "..\n"),
        (
            "SELECT * FROM u JOIN t ON t.k = u.t WHERE u.w <= 'c'",
            "..63\n",
        ),
    ];
    planned(&rt, rt.alloc(), &lines)
}

#[test]
fn an_end_is_the_whole_literal(rt: HostRuntime) -> Result<(), WantOfMemory> {
    let alloc = rt.alloc();
    let plain = two_tables(alloc)?;
    let text = repeated(alloc, "SELECT * FROM u WHERE w >= '", "x", 100, "'")?;
    let ranges = plan(alloc, plain.schemas(), text.as_slice(), None)?;
    let text = ranges_text(alloc, &ranges)?;
    let want = repeated(alloc, "", "78", 100, "..\n")?;
    assert!(rt; text.as_slice() == want.as_slice());
    Ok(())
}
