//! What items spell.
ghost use Rattle.std.specs.Prelude.{◌≡◌, ◌++◌, ℕ, codes, Some, None, IfOk, OnOk};
ghost use Rattle.rm_base.specs.Fields.{AreBytes};
ghost use Rattle.statement_reader.specs.Decoding.{Decoder, Decodes, IsEntryOrNone, decode};
ghost use Rattle.statement_reader.specs.Decoding as decoding;
ghost use Rattle.statement_reader.specs.Question.{schemas_of, schema_in, table_told, told_table, rows_told};
ghost use Rattle.statement_reader.specs.Machine.{table_answer, rows_by};

use crate::tables::Table;
use page_view::LeafItem;
use rm_base::{Duplicate, Name, Text, WantOfMemory};
use row_codec::row_of;
use sql_catalog::schema_of;
use sql_values::{Column, Columns, Row, Rows, Schema, Schemas, Sort};
use std::alloc::Global;

/// The name of the catalog and of its columns, which no statement uses.
fn catalog_name(alloc: Global) -> Result<Name, WantOfMemory>
    ensures { IfOk result (λ name. name ≡ codes "table") }
{
    let mut text = Text::new(alloc);
    text.append(b"table")?;
    Ok(Name::new(text).unwrap())
}

fn text_column(alloc: Global) -> Result<Column, WantOfMemory>
    ensures { IfOk result (λ column. column ≡ decoding.text_column) }
{
    Ok(Column {
        name: catalog_name(alloc)?,
        sort: Sort::Text,
    })
}

/// The schema of the catalog's rows: a table's name, and the text of its schema and its root.
fn catalog_schema(alloc: Global) -> Result<Schema, WantOfMemory>
    ensures { IfOk result (λ schema. schema ≡ decoding.catalog_schema) }
{
    let mut columns = Columns::new(alloc);
    columns.push(text_column(alloc)?)?;
    columns.push(text_column(alloc)?)?;
    Ok(Schema {
        table: catalog_name(alloc)?,
        columns,
        key: 0,
    })
}

/// The table of a row of the catalog, if it is one.
fn table_of(alloc: Global, row: Option<Row>) -> Result<Option<Table>, WantOfMemory>
    ensures { IfOk result (λ table. decoding.IsEntryIn row table) }
{
    let Some(row) = row else {
        return Ok(None);
    };
    match schema_of(alloc, &row)? {
        None => Ok(None),
        Some((schema, root)) => Ok(Some(Table { schema, root })),
    }
}

/// The table that an item of the catalog spells. None exactly where it spells none.
#[tactic(auto, using(crate::proofs::DecodingLaws::entry))]
fn entry_in(alloc: Global, item: &LeafItem) -> Result<Option<Table>, WantOfMemory>
    ensures { IfOk result (λ table. IsEntryOrNone item.now table) }
{
    let catalog = catalog_schema(alloc)?;
    let row = row_of(alloc, &catalog, item.key.as_slice(), item.value.as_slice())?;
    table_of(alloc, row)
}

/// The bytes of a list are bytes. It does nothing when it is run.
fn are_bytes(bytes: &[u8])
    ensures { AreBytes bytes.now }
{}

/// So are those of an item. It does nothing when it is run.
fn bytes_in(item: &LeafItem)
    ensures key { AreBytes item.now.key }
    ensures value { AreBytes item.now.value }
{
    are_bytes(item.key.as_slice());
    are_bytes(item.value.as_slice());
}

/// The table of the first item under a name. None where it spells none.
#[tactic(auto, using(crate::proofs::DecodingLaws::no_entry, crate::proofs::DecodingLaws::one_entry))]
fn first_table(alloc: Global, item: &LeafItem) -> Result<Option<Option<Table>>, WantOfMemory>
    ensures { (d : Decoder) → Decodes d
        → IfOk result (λ table. table_answer table ≡ table_told (d.table item.now)) }
{
    bytes_in(item);
    match entry_in(alloc, item)? {
        None => Ok(None),
        Some(table) => Ok(Some(Some(table))),
    }
}

/// The table of the items under a name, if there is one. None where the first of them spells none.
pub(crate) fn table_in(
    alloc: Global,
    items: &[LeafItem],
) -> Result<Option<Option<Table>>, WantOfMemory>
    ensures { (d : Decoder) → Decodes d
        → IfOk result (λ table. table_answer table ≡ told_table d items.now) }
{
    match items {
        [] => Ok(Some(None)),
        [item, ..] => first_table(alloc, item),
    }
}

fn push_schema(
    alloc: Global,
    schemas: &mut Schemas,
    table: &Option<Table>,
) -> Result<(), WantOfMemory>
    ensures { OnOk result (schemas.new ≡ schemas.old ++ schema_in table.now) }
{
    match table {
        None => Ok(()),
        Some(table) => schemas.push(table.schema.copy(alloc)?),
    }
}

/// The schemas of the tables that there are.
pub(crate) fn schemas_of(
    alloc: Global,
    left: &Option<Table>,
    right: &Option<Table>,
) -> Result<Schemas, WantOfMemory>
    ensures { IfOk result (λ schemas. schemas ≡ schemas_of left.now right.now) }
{
    let mut schemas = Schemas::new(alloc);
    push_schema(alloc, &mut schemas, left)?;
    push_schema(alloc, &mut schemas, right)?;
    Ok(schemas)
}

/// The row that an item spells. None exactly where it spells none.
#[tactic(auto, using(crate::proofs::DecodingLaws::row_is))]
fn row_in(alloc: Global, schema: &Schema, item: &LeafItem) -> Result<Option<Row>, WantOfMemory>
    ensures { (d : Decoder) → Decodes d → IfOk result (λ row. row ≡ d.row schema.now item.now) }
{
    bytes_in(item);
    row_of(alloc, schema, item.key.as_slice(), item.value.as_slice())
}

/// Adds the rows of items. False where one of them spells no row.
#[tactic(auto, using(crate::proofs::DecodingLaws::all_decoded, crate::proofs::DecodingLaws::not_decoded))]
fn push_rows(
    alloc: Global,
    schema: &Schema,
    items: &[LeafItem],
    rows: &mut Rows,
) -> Result<bool, WantOfMemory>
    ensures { (d : Decoder) → Decodes d
        → IfOk result (λ all. decode d schema.now rows.old items.now ≡ decoding.rows_if all
        rows.new) }
{
    for item in items {
        let Some(row) = row_in(alloc, schema, item)? else {
            return Ok(false);
        };
        rows.push(row)?;
    }
    Ok(true)
}

/// The rows with those of the items behind them. None where an item spells no row of the table.
#[tactic(auto, using(crate::proofs::DecodingLaws::rows_answer, crate::proofs::DecodingLaws::no_rows_answer))]
pub(crate) fn rows_in(
    alloc: Global,
    table: &Option<Table>,
    items: &[LeafItem],
    rows: Rows,
) -> Result<Option<Rows>, WantOfMemory>
    ensures { (d : Decoder) → Decodes d
        → IfOk result (λ now. rows_told now ≡ rows_by d table.now rows items.now) }
{
    let mut rows = rows;
    match table {
        None => Ok(None),
        Some(table) => {
            if !push_rows(alloc, &table.schema, items, &mut rows)? {
                return Ok(None);
            }
            Ok(Some(rows))
        }
    }
}
