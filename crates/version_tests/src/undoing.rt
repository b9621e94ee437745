//! A row is changed, its leaf fills up, and the change is undone: the leaf is split for the older version.
ghost use Rattle.std.specs.Prelude.{OnOk};
ghost use Rattle.page_store.specs.Stored.{pages_of};
ghost use Rattle.bplus_tree.specs.Forest.{IsRoot};

use crate::items::{NONE, empty_page, is_undo, undo_item, version};
use crate::trees::{put_key, put_version, start};
use page_image::{Kind, Page};
use page_store::PageStore;
use page_view::LeafView;
use redo_record::{Record, Records, apply};
use rm_base::{Bytes, CATALOG_ROOT_PAGE_ID, KeyRange, Lsn, PageId, UndoPtr, WantOfMemory};
use std::alloc::Global;
use std::test::Fail;
use tree_store::leaves_in;
use undo_versions::{UndoItem, append_plan, older};

/// An undo page without items.
fn undo_page(alloc: Global) -> Result<Option<Page>, WantOfMemory> {
    empty_page(alloc, PageId::new(1027).unwrap(), Kind::Undo)
}

/// Does those records that are for the page.
fn run(page: &mut Page, records: &Records) {
    for record in records.as_slice() {
        step(page, record);
    }
}

fn step(page: &mut Page, record: &Record) {
    if record.page() != page.page() || page.lsn().number() > 2 {
        return;
    }
    let _ = apply(page, record, Lsn::new(2));
}

/// Keeps the undo item on the undo page. Where it went, or nowhere.
fn kept(
    alloc: Global,
    store: &PageStore,
    undo: &mut Page,
    item: &UndoItem,
) -> Result<UndoPtr, WantOfMemory> {
    let Some(meta) = store.page(PageId::new(0).unwrap()) else {
        return Ok(NONE);
    };
    if meta.kind() != Kind::Meta || undo.kind() != Kind::Undo || !is_undo(item) {
        return Ok(NONE);
    }
    match append_plan(alloc, meta, undo, item)? {
        Err(_) => Ok(NONE),
        Ok(step) => {
            run(undo, &step.records);
            Ok(step.at)
        }
    }
}

/// The level of the root, 100 where there is none.
fn height(store: &PageStore, root: PageId) -> u8 {
    store.page(root).map_or(100, |page| page.level())
}

/// The number of bytes of the value of a key in a leaf, and the transaction of the version.
fn value_in(page: &Page, key: u8) -> Option<(usize, u64)> {
    let view = LeafView::over(page)?;
    for i in 0..view.count() {
        let item = view.item(i)?;
        if item.key() == [key].as_slice() {
            return Some((item.value().len(), item.trx().number()));
        }
    }
    None
}

/// The same, wherever the key stands in the tree.
fn value_of(
    alloc: Global,
    store: &PageStore,
    root: PageId,
    key: u8,
) -> Result<Option<(usize, u64)>, WantOfMemory>
    requires { IsRoot (pages_of store.now) root }
{
    let mut low = Bytes::new(alloc);
    low.push(key)?;
    let range = KeyRange {
        low: Some(low),
        high: None,
    };
    let leaves = leaves_in(alloc, store, root, range)?;
    let Some(leaf) = leaves.as_slice().first() else {
        return Ok(None);
    };
    match store.page(*leaf) {
        None => Ok(None),
        Some(page) => Ok(value_in(page, key)),
    }
}

/// Four large rows, which fill the root.
fn fill(alloc: Global, store: &mut PageStore, root: PageId) -> Result<(), WantOfMemory>
    requires { IsRoot (pages_of store.old) root }
    ensures { OnOk result (IsRoot (pages_of store.new) root) }
{
    for key in 1..5u8 {
        put_key(alloc, store, root, key)?;
    }
    Ok(())
}

/// Transaction 8 replaces the row of key 1 by a small one, and another row takes its space. Where the
/// undo item is.
fn changed(
    alloc: Global,
    store: &mut PageStore,
    undo: &mut Page,
    root: PageId,
) -> Result<UndoPtr, WantOfMemory>
    requires { IsRoot (pages_of store.old) root }
    ensures { OnOk result (IsRoot (pages_of store.new) root) }
{
    let first = version(alloc, 1, 7, NONE, 900)?;
    let item = undo_item(alloc, 1, 8, first)?;
    let at = kept(alloc, store, undo, &item)?;
    let second = version(alloc, 1, 8, at, 10)?;
    put_version(alloc, store, root, &second)?;
    put_key(alloc, store, root, 5)?;
    Ok(at)
}

/// Puts back what the undo item says. False where it is not there.
fn put_back(
    alloc: Global,
    store: &mut PageStore,
    undo: &Page,
    at: UndoPtr,
    root: PageId,
) -> Result<bool, WantOfMemory>
    requires { IsRoot (pages_of store.old) root }
    ensures { OnOk result (IsRoot (pages_of store.new) root) }
{
    let Some(found) = older(alloc, undo, at)? else {
        return Ok(false);
    };
    let UndoItem {
        trx: _,
        root: _,
        before: _,
        key: _,
        old,
    } = found;
    match old {
        None => Ok(false),
        Some(old) => put_version(alloc, store, root, &old),
    }
}

#[test]
fn an_undo_splits_the_leaf_and_puts_the_older_version_back(rt: HostRuntime) -> Result<(), Fail> {
    let mut store = start(rt.alloc())?;
    let mut undo = undo_page(rt.alloc())?.ok_or("no page")?;
    let root = PageId::new(CATALOG_ROOT_PAGE_ID).unwrap();
    fill(rt.alloc(), &mut store, root)?;
    let at = changed(rt.alloc(), &mut store, &mut undo, root)?;
    assert_eq!(rt; height(&store, root), 0);
    assert_eq!(rt; value_of(rt.alloc(), &store, root, 1)?, Some((10, 8)));
    assert!(rt; put_back(rt.alloc(), &mut store, &undo, at, root)?);
    assert_eq!(rt; height(&store, root), 1);
    assert_eq!(rt; value_of(rt.alloc(), &store, root, 1)?, Some((900, 7)));
    Ok(())
}
