ghost use Rattle.std.specs.Prelude.{◌≡◌, ◌≤◌, ℕ, List, length, map, Contains, IfOk, OnOk, OnErr};
ghost use Rattle.std.specs.List.{AllByRecursion};
ghost use Rattle.sql_values.specs.declared.values.Value.{Value};
ghost use Rattle.page_view.specs.Leaf.{IsLeaf, leaf_bytes};
ghost use Rattle.page_store.specs.Stored.{pages_of};
ghost use Rattle.tree_change.specs.Effects.{with_item};
ghost use Rattle.bplus_tree.specs.Forest.{Forest, IsFull, IsRoot, with_tree};
ghost use Rattle.row_codec.specs.Records.{IsRecord, value_bytes};
ghost use Rattle.sql_engine.specs.Sound.{IsPlaced};
ghost use Rattle.paged_tables.specs.Items.{row_item, row_items};
ghost use Rattle.paged_tables.specs.Changes.{changed_items};
ghost use Rattle.paged_tables.specs.Content.{IsStored};

use crate::items::live_item;
use page_store::PageStore;
use page_view::LeafItem;
use redo_record::TreeNo;
use rm_base::{Bytes, Duplicate, PageId, WantOfMemory};
use row_codec::{row_of, value_of};
use sql_database::Change;
use sql_values::{Row, Rows, Schema};
use std::alloc::Global;
use tree_store::{put, take_out};

/// The row of an item.
fn row_in(alloc: Global, schema: &Schema, item: &LeafItem) -> Result<Row, WantOfMemory>
    requires spelled { (row : List Value) × IsStored schema.now row × (leaf_bytes item.now ≡ row_item schema.now.key row) }
    requires is_leaf { IsLeaf item.now }
    ensures { (row : List Value) → IsStored schema.now row → leaf_bytes item.now ≡ row_item schema.now.key row
        → IfOk result (λ found. found ≡ row) }
{
    match row_of(alloc, schema, item.key.as_slice(), item.value.as_slice())? {
        Some(row) => Ok(row),
        None => unreachable!(),
    }
}

/// The rows of items, one for one.
pub(crate) fn rows_of(
    alloc: Global,
    schema: &Schema,
    items: &[LeafItem],
) -> Result<Rows, WantOfMemory>
    requires spelled { (rows : List (List Value)) × AllByRecursion (IsStored schema.now) rows
        × (map leaf_bytes items.now ≡ row_items schema.now.key rows) }
    requires are_leaves { AllByRecursion IsLeaf items.now }
    ensures { (rows : List (List Value)) → AllByRecursion (IsStored schema.now) rows
        → map leaf_bytes items.now ≡ row_items schema.now.key rows → IfOk result (λ found. found ≡ rows) }
{
    let mut rows = Rows::new(alloc);
    for item in items {
        rows.push(row_in(alloc, schema, item)?)?;
    }
    Ok(rows)
}

/// Puts the item of a row into a tree, in place of the one with its key.
fn put_row(
    alloc: Global,
    store: &mut PageStore,
    schema: &Schema,
    root: PageId,
    key: &Bytes,
    row: &Row,
) -> Result<Result<(), TreeNo>, WantOfMemory>
    requires forest { IsRoot (pages_of store.old) root }
    requires stored { IsRecord schema.now row.now key.now (value_bytes schema.now.key row.now) }
    ensures ok { (roots : List ℕ) (items : ℕ → List (List ℕ)) → Forest (pages_of store.old) roots items → Contains roots root
        → IfOk result (λ answer. OnOk answer (
        Forest (pages_of store.new) roots (with_tree items root (with_item key.now (row_item schema.now.key row.now) (items root))))) }
    ensures full { IfOk result (λ answer. OnErr answer (IsFull (pages_of store.new) root)) }
    ensures kept { store.new.kept ≡ store.old.kept }
{
    let Ok(value) = value_of(alloc, schema, row)? else {
        unreachable!()
    };
    put(alloc, store, root, &live_item(key.copy(alloc)?, value))
}

/// Changes the items of a table's tree.
pub(crate) fn change_tree(
    alloc: Global,
    store: &mut PageStore,
    schema: &Schema,
    root: PageId,
    change: &Change,
) -> Result<Result<(), TreeNo>, WantOfMemory>
    requires forest { IsRoot (pages_of store.old) root }
    requires short { length change.now.key ≤ 64 }
    requires placed { IsPlaced schema.now change.now.key change.now.row }
    ensures ok { (roots : List ℕ) (items : ℕ → List (List ℕ)) → Forest (pages_of store.old) roots items → Contains roots root
        → IfOk result (λ answer. OnOk answer (
        Forest (pages_of store.new) roots (with_tree items root (changed_items schema.now.key change.now (items root))))) }
    ensures full { IfOk result (λ answer. OnErr answer (IsFull (pages_of store.new) root)) }
    ensures kept { store.new.kept ≡ store.old.kept }
{
    match &change.row {
        None => take_out(alloc, store, root, change.key.as_slice()),
        Some(row) => put_row(alloc, store, schema, root, &change.key, row),
    }
}
