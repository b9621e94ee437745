ghost use Rattle.std.specs.Prelude.{◌≡◌, ◌≤◌, ℕ, List, codes, IfOk, Some, option_map};
ghost use Rattle.sql_values.specs.Tables.{IsTable};
ghost use Rattle.page_view.specs.Leaf.{IsLeaf, leaf_bytes};
ghost use Rattle.page_store.specs.Stored.{pages_of};
ghost use Rattle.row_codec.specs.Records.{value_bytes};
ghost use Rattle.sql_catalog.specs.Catalog.{AreBounded, catalog_row};
ghost use Rattle.sql_database.specs.Database.{Database};
ghost use Rattle.paged_tables.specs.Items.{Entry, entry_item, entry_named, live_item};
ghost use Rattle.paged_tables.specs.Catalog.{catalog_schema, catalog_value};
ghost use Rattle.paged_tables.specs.Content.{IsEntry, Holds};

use crate::items::live_item;
use crate::reading::items_in;
use page_store::PageStore;
use page_view::LeafItem;
use rm_base::{Bytes, CATALOG_ROOT_PAGE_ID, KeyRange, Name, PageId, Text, WantOfMemory};
use row_codec::{row_of, value_of};
use sql_catalog::{row_for, schema_of};
use sql_values::{Column, Columns, Schema, Sort};
use std::alloc::Global;

/// The root of the catalog's tree.
pub(crate) fn catalog_root() -> PageId
    ensures { result ≡ CATALOG_ROOT_PAGE_ID }
{
    PageId::new(CATALOG_ROOT_PAGE_ID).unwrap()
}

fn copied(alloc: Global, bytes: &[u8]) -> Result<Bytes, WantOfMemory>
    ensures { IfOk result (λ copy. copy ≡ bytes.now) }
{
    let mut copy = Bytes::new(alloc);
    copy.append(bytes)?;
    Ok(copy)
}

/// The name of the catalog and of its columns, which no statement uses.
fn catalog_name(alloc: Global) -> Result<Name, WantOfMemory>
    ensures { IfOk result (λ name. name ≡ codes "table") }
{
    let mut text = Text::new(alloc);
    text.append(b"table")?;
    Ok(Name::new(text).unwrap())
}

fn text_column(alloc: Global) -> Result<Column, WantOfMemory>
    ensures { IfOk result (λ column. column ≡ record { name = codes "table"; sort = Sort.Text }) }
{
    Ok(Column {
        name: catalog_name(alloc)?,
        sort: Sort::Text,
    })
}

/// The schema of the catalog's rows: a table's name, and the text of its schema and its root.
fn catalog_schema(alloc: Global) -> Result<Schema, WantOfMemory>
    ensures { IfOk result (λ schema. schema ≡ catalog_schema) }
{
    let mut columns = Columns::new(alloc);
    columns.push(text_column(alloc)?)?;
    columns.push(text_column(alloc)?)?;
    Ok(Schema {
        table: catalog_name(alloc)?,
        columns,
        key: 0,
    })
}

/// The item of a table.
pub(crate) fn entry_item(
    alloc: Global,
    schema: &Schema,
    root: PageId,
) -> Result<LeafItem, WantOfMemory>
    requires table { IsTable schema.now }
    requires bounded { AreBounded schema.now root }
    ensures item { IfOk result (λ item. item ≡ live_item schema.now.table (catalog_value schema.now root)) }
    ensures is_leaf { IfOk result IsLeaf }
{
    let catalog = catalog_schema(alloc)?;
    let row = row_for(alloc, schema, root)?;
    let Ok(value) = value_of(alloc, &catalog, &row)? else {
        unreachable!()
    };
    Ok(live_item(copied(alloc, schema.table.as_slice())?, value))
}

/// The table of an item, and the root of its tree.
fn entry_of(alloc: Global, item: &LeafItem) -> Result<(Schema, PageId), WantOfMemory>
    requires spelled { (e : Entry) × IsEntry e × (leaf_bytes item.now ≡ entry_item e) }
    requires is_leaf { IsLeaf item.now }
    ensures { (e : Entry) → IsEntry e → leaf_bytes item.now ≡ entry_item e
        → IfOk result (λ found. found ≡ (e.schema, e.root)) }
{
    let catalog = catalog_schema(alloc)?;
    let key = item.key.as_slice();
    let Some(row) = row_of(alloc, &catalog, key, item.value.as_slice())? else {
        unreachable!()
    };
    let Some(found) = schema_of(alloc, &row)? else {
        unreachable!()
    };
    Ok(found)
}

/// The range of one key.
fn only(alloc: Global, key: &[u8]) -> Result<KeyRange, WantOfMemory>
    ensures low { IfOk result (λ range. range.low ≡ Some key.now) }
    ensures high { IfOk result (λ range. range.high ≡ Some key.now) }
{
    Ok(KeyRange {
        low: Some(copied(alloc, key)?),
        high: Some(copied(alloc, key)?),
    })
}

/// The table with that name and the root of its tree, where there is one.
pub(crate) fn find_entry(
    alloc: Global,
    store: &PageStore,
    name: &Name,
) -> Result<Option<(Schema, PageId)>, WantOfMemory>
    requires { (d : Database) × Holds (pages_of store.now) d }
    ensures { (d : Database) (h : Holds (pages_of store.now) d)
        → IfOk result (λ found. found ≡ option_map (λ e. (e.schema, e.root)) (entry_named h.entries name.now)) }
{
    let range = only(alloc, name.as_slice())?;
    let items = items_in(alloc, store, catalog_root(), &range)?;
    match items.get(0) {
        None => Ok(None),
        Some(item) => Ok(Some(entry_of(alloc, item)?)),
    }
}
