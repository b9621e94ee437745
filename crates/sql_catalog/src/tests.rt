ghost use Rattle.std.specs.Prelude.{IfOk, IfSome};
ghost use Rattle.sql_values.specs.Tables.{IsTable};

use crate::*;
use rm_base::{Bytes, Name, PageId, WantOfMemory};
use sql_values::{Column, Columns, Row, Schema, Sort, Value};
use std::alloc::Global;
use std::test::Fail;

fn bytes(alloc: Global, text: &[u8]) -> Result<Bytes, WantOfMemory> {
    let mut bytes = Bytes::new(alloc);
    bytes.append(text)?;
    Ok(bytes)
}

/// A table `t` of INT columns with these names. None where a name is none, or a table cannot have them.
fn table(alloc: Global, names: &[u8], key: u8) -> Result<Option<Schema>, WantOfMemory>
    ensures { IfOk result (λ schema. IfSome schema (λ s. IsTable s)) }
{
    let mut columns = Columns::new(alloc);
    for name in names {
        let Some(name) = Name::new(bytes(alloc, &[*name])?) else {
            return Ok(None);
        };
        columns.push(Column {
            name,
            sort: Sort::Int,
        })?;
    }
    let Some(table) = Name::new(bytes(alloc, b"t")?) else {
        return Ok(None);
    };
    let schema = Schema {
        table,
        columns,
        key,
    };
    if !is_table(&schema) {
        return Ok(None);
    }
    Ok(Some(schema))
}

/// The catalog's row with these bytes behind the name `t`.
fn row(alloc: Global, text: &[u8]) -> Result<Row, WantOfMemory> {
    let mut row = Row::new(alloc);
    row.push(Value::Text(bytes(alloc, b"t")?))?;
    row.push(Value::Text(bytes(alloc, text)?))?;
    Ok(row)
}

/// The root, the key and the number of columns of a row that is one of the catalog.
fn found(alloc: Global, text: &[u8]) -> Result<Option<(u32, u8, usize)>, WantOfMemory> {
    let row = row(alloc, text)?;
    match schema_of(alloc, &row)? {
        None => Ok(None),
        Some((schema, root)) => Ok(Some((root.number(), schema.key, schema.columns.len()))),
    }
}

#[test]
fn a_table_is_spelled_as_the_format_shows(rt: HostRuntime) -> Result<(), Fail> {
    let schema = table(rt.alloc(), b"kv", 1)?.ok_or("no table")?;
    let row = row_for(rt.alloc(), &schema, PageId::new(1028).unwrap())?;
    let [Value::Text(name), Value::Text(text)] = row.as_slice() else {
        return Err("no row of two texts".into());
    };
    assert_eq!(rt; name.as_slice(), b"t".as_slice());
    assert_eq!(rt;
        text.as_slice(),
        b"\0\0\x04\x04\x01\x02\x01k\x01\x01v\x01".as_slice()
    );
    let (again, root) = schema_of(rt.alloc(), &row)?.ok_or("not read")?;
    assert_eq!(rt;
        (root.number(), again.key, again.columns.len()),
        (1028, 1, 2)
    );
    catalog_laws();
    Ok(())
}

#[test]
fn other_rows_are_none_of_the_catalog(rt: HostRuntime) -> Result<(), Fail> {
    let alloc = rt.alloc();
    assert_eq!(rt;
        found(alloc, b"\0\0\x04\x04\0\x02\x01k\x01\x01v\x02")?,
        Some((1028, 0, 2))
    );
    assert_eq!(rt;
        found(alloc, b"\0\0\x04\x04\0\x02\x01k\x01\x01v\x02\0")?,
        None
    );
    assert_eq!(rt; found(alloc, b"\0\0\x04\x04\0\x02\x01k\x01\x01v")?, None);
    assert_eq!(rt;
        found(alloc, b"\0\0\x04\x04\0\x02\x01k\x01\x01k\x02")?,
        None
    );
    assert_eq!(rt;
        found(alloc, b"\0\0\x04\x04\x02\x02\x01k\x01\x01v\x02")?,
        None
    );
    assert_eq!(rt; found(alloc, b"\0\0\x04\x04\0\x01\x01k\x03")?, None);
    assert_eq!(rt; found(alloc, b"\0\0\x04\x04\0\x01\0\x01")?, None);
    assert_eq!(rt; found(alloc, b"\0\0\x04\x04\0\0")?, None);
    assert_eq!(rt; found(alloc, b"\0\0\x80\0\0\x01\x01k\x01")?, None);
    assert_eq!(rt; found(alloc, b"\0\0\x04")?, None);
    Ok(())
}

#[test]
fn a_table_has_1_to_16_columns_of_different_names(rt: HostRuntime) -> Result<(), Fail> {
    let alloc = rt.alloc();
    assert!(rt; table(alloc, b"", 0)?.is_none());
    assert!(rt; table(alloc, b"a", 0)?.is_some());
    assert!(rt; table(alloc, b"a", 1)?.is_none());
    assert!(rt; table(alloc, b"aba", 0)?.is_none());
    assert!(rt; table(alloc, b"abcdefghijklmnop", 15)?.is_some());
    assert!(rt; table(alloc, b"abcdefghijklmnopq", 0)?.is_none());
    Ok(())
}
