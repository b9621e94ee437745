//! Versions, undo items and pages for tests, and tests of their limits.
ghost use Rattle.std.specs.Prelude.{◌≡◌, ◌∷◌, [], IfOk, IfSome, IsTrue};
ghost use Rattle.page_image.specs.Meta.{IsMeta, IsSlots};
ghost use Rattle.page_view.specs.Leaf.{IsLeaf};
ghost use Rattle.page_view.specs.Undo.{IsOld, IsUndo};
ghost use Rattle.undo_versions.specs.Reading.{undone_of};

use page_image::{Kind, Page};
use page_view::LeafItem;
use rm_base::{
    Bytes, CATALOG_ROOT_PAGE_ID, Items, Lsn, MAX_KEY_BYTES, MAX_RECORD_BYTES, PageId,
    RECORD_OVERHEAD_BYTES, TrxId, UndoPtr, WantOfMemory,
};
use std::alloc::Global;
use undo_versions::UndoItem;

/// No undo item.
pub const NONE: UndoPtr = UndoPtr { page: 0, slot: 0 };

fn key_of(alloc: Global, key: u8) -> Result<Bytes, WantOfMemory>
    ensures { IfOk result (λ bytes. bytes ≡ key ∷ []) }
{
    let mut bytes = Bytes::new(alloc);
    bytes.push(key)?;
    Ok(bytes)
}

/// A version of a key by a transaction, with so many bytes of value.
pub fn version(
    alloc: Global,
    key: u8,
    trx: u64,
    older: UndoPtr,
    size: usize,
) -> Result<LeafItem, WantOfMemory>
    ensures { IfOk result (λ item. item.key ≡ key ∷ []) }
{
    Ok(LeafItem {
        key: key_of(alloc, key)?,
        deleted: false,
        trx: TrxId::new(trx),
        older,
        value: Items::from_vec(vec![in alloc; 9u8; size]?),
    })
}

/// The undo item of a change of a key by a transaction.
pub fn undo_item(
    alloc: Global,
    key: u8,
    trx: u64,
    old: LeafItem,
) -> Result<UndoItem, WantOfMemory> {
    Ok(UndoItem {
        trx: TrxId::new(trx),
        root: PageId::new(CATALOG_ROOT_PAGE_ID).unwrap(),
        before: NONE,
        key: key_of(alloc, key)?,
        old: Some(old),
    })
}

/// Whether the version is within its limits.
pub fn is_leaf(item: &LeafItem) -> bool
    ensures { IsTrue result → IsLeaf item.now }
{
    let _trx = item.trx.number();
    let _page = item.older.page;
    let _slot = item.older.slot;
    let key = item.key.len();
    let value = item.value.len();
    if key > MAX_KEY_BYTES {
        return false;
    }
    if value > MAX_RECORD_BYTES {
        return false;
    }
    RECORD_OVERHEAD_BYTES + key + value <= MAX_RECORD_BYTES
}

/// Whether what was there is a version of the key, if anything was there.
fn is_old(key: &Bytes, old: &Option<LeafItem>) -> bool
    ensures { IsTrue result → IsOld key.now old.now }
{
    match old {
        None => true,
        Some(item) => is_leaf(item) && item.key.as_slice() == key.as_slice(),
    }
}

/// Whether the undo item is within its limits.
pub fn is_undo(item: &UndoItem) -> bool
    ensures { IsTrue result → IsUndo (undone_of item.now) }
{
    let _trx = item.trx.number();
    let _root = item.root.number();
    let _page = item.before.page;
    let _slot = item.before.slot;
    item.key.len() <= MAX_KEY_BYTES && is_old(&item.key, &item.old)
}

/// The empty page of a kind.
pub fn empty_page(alloc: Global, id: PageId, kind: Kind) -> Result<Option<Page>, WantOfMemory> {
    let mut page = Page::blank(alloc, id)?;
    if !page.can_make(kind, 0) {
        return Ok(None);
    }
    page.make(kind, 0, Lsn::new(1));
    Ok(Some(page))
}

fn patch(page: &mut Page, at: u16, bytes: &[u8]) {
    if page.can_patch(at, bytes) && page.lsn().number() <= 1 {
        page.patch(at, bytes, Lsn::new(1));
    }
}

/// Whether the page is the meta page.
fn is_meta(page: &Page) -> bool
    ensures { IsTrue result → IsMeta page.now }
{
    page.kind() == Kind::Meta && page.page().number() == 0
}

/// A meta page that counts so many pages, with the next number.
pub fn meta_page(alloc: Global, count: u32, next: u64) -> Result<Option<Page>, WantOfMemory>
    ensures { IfOk result (λ page. IfSome page IsMeta) }
{
    let Some(mut page) = empty_page(alloc, PageId::new(0).unwrap(), Kind::Meta)? else {
        return Ok(None);
    };
    patch(&mut page, 36, &count.to_be_bytes());
    patch(&mut page, 44, &next.to_be_bytes());
    Ok(if is_meta(&page) { Some(page) } else { None })
}

/// Whether the page is the slots page.
fn is_slots(page: &Page) -> bool
    ensures { IsTrue result → IsSlots page.now }
{
    page.kind() == Kind::Slots && page.page().number() == 1
}

/// A slots page of which each slot is free.
pub fn slots_page(alloc: Global) -> Result<Option<Page>, WantOfMemory>
    ensures { IfOk result (λ page. IfSome page IsSlots) }
{
    let Some(page) = empty_page(alloc, PageId::new(1).unwrap(), Kind::Slots)? else {
        return Ok(None);
    };
    Ok(if is_slots(&page) { Some(page) } else { None })
}
