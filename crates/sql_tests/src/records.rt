//! Rows and keys as bytes.
use rm_base::{Bytes, Items, Name, WantOfMemory};
use row_codec::*;
use sql_values::{Column, Row, Schema, Sort, Value};
use std::alloc::Global;
use std::test::Fail;

fn bytes(alloc: Global, bytes: &[u8]) -> Result<Bytes, WantOfMemory> {
    let mut list = Items::new(alloc);
    list.append(bytes)?;
    Ok(list)
}

fn text(alloc: Global, text: &[u8]) -> Result<Value, WantOfMemory> {
    Ok(Value::Text(bytes(alloc, text)?))
}

fn schema(alloc: Global, sorts: &[Sort]) -> Result<Option<Schema>, WantOfMemory> {
    let mut columns = Items::new(alloc);
    for sort in sorts {
        let Some(name) = Name::new(bytes(alloc, b"c")?) else {
            return Ok(None);
        };
        columns.push(Column { name, sort: *sort })?;
    }
    Ok(Name::new(bytes(alloc, b"t")?).map(|table| Schema {
        table,
        columns,
        key: 0,
    }))
}

/// The key bytes of a value that is not NULL and not too large.
fn key(alloc: Global, value: &Value) -> Result<Option<Bytes>, WantOfMemory> {
    match value {
        Value::Null => Ok(None),
        _ => Ok(key_of(alloc, value)?.ok()),
    }
}

#[test]
fn keys_have_the_bytes_of_the_format(rt: HostRuntime) -> Result<(), Fail> {
    let cases = [
        (5, [0x80, 0, 0, 0, 0, 0, 0, 5]),
        (-1, [0x7f, 0xff, 0xff, 0xff, 0xff, 0xff, 0xff, 0xff]),
        (i64::MIN, [0, 0, 0, 0, 0, 0, 0, 0]),
        (i64::MAX, [0xff, 0xff, 0xff, 0xff, 0xff, 0xff, 0xff, 0xff]),
    ];
    for (number, want) in cases {
        let bytes = key(rt.alloc(), &Value::Int(number))?.ok_or("no key")?;
        assert_eq!(rt; bytes.as_slice(), want.as_slice(), "{number}");
    }
    let letters = [b'x'; 65];
    for (n, fits) in [(0usize, true), (64, true), (65, false)] {
        let value = text(rt.alloc(), &letters[..n])?;
        assert_eq!(rt; key(rt.alloc(), &value)?.is_some(), fits, "{n} letters");
    }
    Ok(())
}

#[test]
fn bytes_are_ordered_as_keys(rt: HostRuntime) -> Result<(), Fail> {
    let numbers = [
        i64::MIN,
        i64::MIN + 1,
        -65_536,
        -256,
        -255,
        -1,
        0,
        1,
        255,
        256,
        65_536,
        i64::MAX,
    ];
    let texts: [&[u8]; 12] = [
        b"", b"\0", b"\0\0", b" ", b"A", b"AB", b"B", b"a", b"ab", b"abc", b"b", b"\xff",
    ];
    for (i, (a, s)) in numbers.iter().zip(texts).enumerate() {
        for (j, (b, t)) in numbers.iter().zip(texts).enumerate() {
            let (a, b) = (Value::Int(*a), Value::Int(*b));
            let (s, t) = (text(rt.alloc(), s)?, text(rt.alloc(), t)?);
            for (x, y) in [(a, b), (s, t)] {
                let p = key(rt.alloc(), &x)?.ok_or("no key")?;
                let q = key(rt.alloc(), &y)?.ok_or("no key")?;
                assert_eq!(rt; p.as_slice().cmp(q.as_slice()), i.cmp(&j), "{i} and {j}");
            }
        }
    }
    Ok(())
}

const ANN: [u8; 7] = [2, 0, 3, b'a', b'n', b'n', 0];

const SEVEN: [u8; 8] = [0x80, 0, 0, 0, 0, 0, 0, 7];

fn three_columns(alloc: Global) -> Result<Option<Schema>, WantOfMemory> {
    schema(alloc, &[Sort::Int, Sort::Text, Sort::Int])
}

#[test]
fn a_row_is_read_from_what_the_format_shows(rt: HostRuntime) -> Result<(), Fail> {
    let schema = three_columns(rt.alloc())?.ok_or("no schema")?;
    let row = row_of(rt.alloc(), &schema, &SEVEN, &ANN)?.ok_or("no row")?;
    assert_eq!(rt; row.len(), 3);
    let ann = text(rt.alloc(), b"ann")?;
    assert_eq!(rt;
        row.get(1).and_then(|cell| compare_texts(cell, &ann)),
        Some(true)
    );
    assert!(rt; matches!(row.get(0), Some(Value::Int(7))));
    assert!(rt; matches!(row.get(2), Some(Value::Null)));
    row_laws();
    key_laws();
    Ok(())
}

fn compare_texts(a: &Value, b: &Value) -> Option<bool> {
    match (a, b) {
        (Value::Text(a), Value::Text(b)) => Some(a.as_slice() == b.as_slice()),
        _ => None,
    }
}

#[test]
fn bytes_that_spell_no_row_are_refused(rt: HostRuntime) -> Result<(), Fail> {
    let schema = three_columns(rt.alloc())?.ok_or("no schema")?;
    let values: [&[u8]; 9] = [
        b"",
        b"\0",
        b"\0\0\0",
        b"\x02\0\x03an",
        b"\x02\0",
        b"\x01\0\0\0\0\0\0\0\x05\0",
        b"\0\x02\0\0",
        b"\x03\0",
        b"\0\x01\0\0\0\0\0\0\0",
    ];
    for (i, value) in values.iter().enumerate() {
        assert!(rt;
            row_of(rt.alloc(), &schema, &SEVEN, value)?.is_none(),
            "value {i}"
        );
    }
    assert!(rt; row_of(rt.alloc(), &schema, &SEVEN[..7], &ANN)?.is_none());
    assert!(rt; row_of(rt.alloc(), &schema, &SEVEN, b"\0\0")?.is_some());
    Ok(())
}

#[test]
fn a_row_of_1000_bytes_fits_and_no_more(rt: HostRuntime) -> Result<(), Fail> {
    for (n, fits) in [
        (973usize, true),
        (974, false),
        (65_536, false),
        (70_000, false),
    ] {
        let letters = vec![in rt.alloc(); b'x'; n]?;
        let mut row = Row::new(rt.alloc());
        row.push(Value::Int(1))?;
        row.push(text(rt.alloc(), letters.as_slice())?)?;
        let schema = schema(rt.alloc(), &[Sort::Int, Sort::Text])?.ok_or("no schema")?;
        assert_eq!(rt;
            spelled(rt.alloc(), &schema, &row)?,
            Some(fits),
            "{n} letters"
        );
    }
    Ok(())
}

/// Whether the row fits a leaf item, and is read again from its key and its value.
fn spelled(alloc: Global, schema: &Schema, row: &Row) -> Result<Option<bool>, WantOfMemory> {
    if !fits_schema(schema, row) {
        return Ok(None);
    }
    let Ok(value) = value_of(alloc, schema, row)? else {
        return Ok(Some(false));
    };
    let again = row_of(
        alloc,
        schema,
        &[0x80, 0, 0, 0, 0, 0, 0, 1],
        value.as_slice(),
    )?;
    Ok(again.map(|again| again.len() == row.len()))
}
