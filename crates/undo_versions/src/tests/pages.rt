//! Pages and items for tests.
ghost use Rattle.std.specs.Prelude.{◌≡◌, IsTrue, IfOk, IfSome};
ghost use Rattle.page_view.specs.Leaf.{IsLeaf};
ghost use Rattle.page_view.specs.Undo.{IsUndo, IsOld};
ghost use Rattle.undo_versions.specs.Reading.{undone_of};

use crate::UndoItem;
use page_image::{Kind, Page};
use page_view::LeafItem;
use redo_record::{Record, Records, apply};
use rm_base::{
    Bytes, Items, Lsn, MAX_KEY_BYTES, MAX_RECORD_BYTES, PageId, RECORD_OVERHEAD_BYTES, TrxId,
    UndoPtr, WantOfMemory,
};
use std::alloc::Global;

/// The page before it is made, and nothing where there is no such page.
pub fn blank(alloc: Global, number: u32) -> Result<Option<Page>, WantOfMemory> {
    match PageId::new(number) {
        None => Ok(None),
        Some(id) => Ok(Some(Page::blank(alloc, id)?)),
    }
}

fn made(alloc: Global, number: u32, kind: Kind) -> Result<Option<Page>, WantOfMemory> {
    let Some(mut page) = blank(alloc, number)? else {
        return Ok(None);
    };
    if !page.can_make(kind, 0) {
        return Ok(None);
    }
    page.make(kind, 0, Lsn::new(1));
    Ok(Some(page))
}

/// An undo page without items.
pub fn undo_page(alloc: Global, number: u32) -> Result<Option<Page>, WantOfMemory> {
    made(alloc, number, Kind::Undo)
}

/// A meta page that counts so many pages.
pub fn meta_page(alloc: Global, count: u32) -> Result<Option<Page>, WantOfMemory> {
    let Some(mut page) = made(alloc, 0, Kind::Meta)? else {
        return Ok(None);
    };
    let bytes = count.to_be_bytes();
    if page.can_patch(36, &bytes) && page.lsn().number() <= 1 {
        page.patch(36, &bytes, Lsn::new(1));
    }
    Ok(Some(page))
}

/// Does those records that are for the page.
pub fn run(page: &mut Page, records: &Records, lsn: u64) {
    for record in records.as_slice() {
        step(page, record, lsn);
    }
}

fn step(page: &mut Page, record: &Record, lsn: u64) {
    if record.page() != page.page() || lsn < 1 || lsn < page.lsn().number() {
        return;
    }
    let _ = apply(page, record, Lsn::new(lsn));
}

/// A version of key 7 with so many bytes of value.
pub fn version(
    alloc: Global,
    trx: u64,
    older: UndoPtr,
    size: usize,
) -> Result<LeafItem, WantOfMemory> {
    let mut key = Bytes::new(alloc);
    key.push(7)?;
    Ok(LeafItem {
        key,
        deleted: false,
        trx: TrxId::new(trx),
        older,
        value: Items::from_vec(vec![in alloc; 9u8; size]?),
    })
}

/// The undo item of a change of key 7 by a transaction.
pub fn undo_item(
    alloc: Global,
    trx: u64,
    before: UndoPtr,
    old: Option<LeafItem>,
) -> Result<UndoItem, WantOfMemory> {
    let mut key = Bytes::new(alloc);
    key.push(7)?;
    Ok(UndoItem {
        trx: TrxId::new(trx),
        root: PageId::new(1030).unwrap(),
        before,
        key,
        old,
    })
}

/// Whether the version is within its limits.
fn is_leaf(item: &LeafItem) -> bool
    ensures { IsTrue result → IsLeaf item.now }
{
    let _trx = item.trx.number();
    let _page = item.older.page;
    let _slot = item.older.slot;
    let key = item.key.len();
    let value = item.value.len();
    if key > MAX_KEY_BYTES {
        return false;
    }
    if value > MAX_RECORD_BYTES {
        return false;
    }
    RECORD_OVERHEAD_BYTES + key + value <= MAX_RECORD_BYTES
}

/// Whether what was there is a version of the key, if anything was there.
fn is_old(key: &Bytes, old: &Option<LeafItem>) -> bool
    ensures { IsTrue result → IsOld key.now old.now }
{
    match old {
        None => true,
        Some(item) => is_leaf(item) && item.key.as_slice() == key.as_slice(),
    }
}

/// Whether the undo item is within its limits.
pub fn is_undo(item: &UndoItem) -> bool
    ensures { IsTrue result → IsUndo (undone_of item.now) }
{
    let _trx = item.trx.number();
    let _root = item.root.number();
    let _page = item.before.page;
    let _slot = item.before.slot;
    item.key.len() <= MAX_KEY_BYTES && is_old(&item.key, &item.old)
}
