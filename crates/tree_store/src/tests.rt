ghost use Rattle.std.specs.Prelude.{◌≤◌, IfOk, IfSome, OnOk};
ghost use Rattle.page_view.specs.Leaf.{IsLeaf};
ghost use Rattle.page_store.specs.Stored.{pages_of};
ghost use Rattle.bplus_tree.specs.Forest.{IsRoot};

use crate::*;
use page_image::Page;
use page_store::PageStore;
use page_view::{LeafItem, LeafView};
use rm_base::{Bytes, CATALOG_ROOT_PAGE_ID, Items, KeyRange, PageId, TrxId, UndoPtr, WantOfMemory};
use std::alloc::Global;
use std::test::Fail;

/// The group that puts the key `s` into the first tree and begins another one, as it is spelled behind
/// the opening: the item, the new root, and the number of pages.
const BEGUN: &[u8] =
    b"\0\0\0\x3c\0\0\0\0\0\0\0\x02\0\x03\x03\0\0\x04\x02\0\0\0\x11\x01s\0\0\0\0\0\0\0\0\x07\0\0\0\0\0\0\x01\0\0\x04\x04\x04\0\x02\0\0\0\0\0\x24\0\x04\0\0\x04\x05";

/// How many bytes the opening has.
const OPENING: usize = 79;

/// A store with its first tree.
fn start(alloc: Global) -> Result<PageStore, WantOfMemory>
    ensures { IfOk result (λ store. IsRoot (pages_of store) CATALOG_ROOT_PAGE_ID) }
{
    forest_laws();
    PageStore::new(alloc)
}

/// An item with a key of one byte and so many bytes of value.
fn item_of(alloc: Global, key: u8, size: usize) -> Result<LeafItem, WantOfMemory>
    requires { size ≤ 900 }
    ensures { IfOk result IsLeaf }
{
    let mut bytes = Bytes::new(alloc);
    bytes.push(key)?;
    Ok(LeafItem {
        key: bytes,
        deleted: false,
        trx: TrxId::new(7),
        older: UndoPtr { page: 0, slot: 0 },
        value: Items::from_vec(vec![in alloc; 9u8; size]?),
    })
}

/// Puts a large item with the key into a tree. False where there is no space.
fn put_key(
    alloc: Global,
    store: &mut PageStore,
    root: PageId,
    key: u8,
) -> Result<bool, WantOfMemory>
    requires { IsRoot (pages_of store.old) root }
    ensures { OnOk result (IsRoot (pages_of store.new) root) }
{
    let item = item_of(alloc, key, 900)?;
    let answer = put(alloc, store, root, &item)?;
    Ok(answer.is_ok())
}

/// Takes the item with the key out of a tree.
fn take_key(
    alloc: Global,
    store: &mut PageStore,
    root: PageId,
    key: u8,
) -> Result<bool, WantOfMemory>
    requires { IsRoot (pages_of store.old) root }
    ensures { OnOk result (IsRoot (pages_of store.new) root) }
{
    let answer = take_out(alloc, store, root, &[key])?;
    Ok(answer.is_ok())
}

/// Puts a small item into a tree and begins another one.
fn begin(
    alloc: Global,
    store: &mut PageStore,
    root: PageId,
    key: u8,
) -> Result<Option<PageId>, WantOfMemory>
    requires { IsRoot (pages_of store.old) root }
    ensures { IfOk result (λ begun. IfSome begun (λ new. IsRoot (pages_of store.new) new)) }
{
    let item = item_of(alloc, key, 0)?;
    let Ok(path) = make_room(alloc, store, root, &item)? else {
        return Ok(None);
    };
    let Some(new) = next_page(store) else {
        return Ok(None);
    };
    put_with_tree(alloc, store, root, &path, &item)?;
    Ok(Some(new))
}

/// Adds the keys of a leaf.
fn add_keys(page: &Page, keys: &mut Vec<u8>) -> Result<(), WantOfMemory> {
    let Some(view) = LeafView::over(page) else {
        return Ok(());
    };
    for i in 0..view.count() {
        if let Some(item) = view.item(i) {
            keys.push(item.key().first().copied().unwrap_or(0))?;
        }
    }
    Ok(())
}

/// An end of a range.
fn end_of(alloc: Global, key: Option<u8>) -> Result<Option<Bytes>, WantOfMemory> {
    let Some(key) = key else {
        return Ok(None);
    };
    let mut bytes = Bytes::new(alloc);
    bytes.push(key)?;
    Ok(Some(bytes))
}

/// The keys of the leaves that have a range.
fn keys_in(
    alloc: Global,
    store: &PageStore,
    root: PageId,
    low: Option<u8>,
    high: Option<u8>,
) -> Result<Vec<u8>, WantOfMemory>
    requires { IsRoot (pages_of store.now) root }
{
    let range = KeyRange {
        low: end_of(alloc, low)?,
        high: end_of(alloc, high)?,
    };
    let leaves = leaves_in(alloc, store, root, range)?;
    let mut keys = Vec::new(alloc);
    for leaf in leaves.as_slice() {
        if let Some(page) = store.page(*leaf) {
            add_keys(page, &mut keys)?;
        }
    }
    Ok(keys)
}

#[test]
fn items_are_found_by_their_keys(rt: HostRuntime) -> Result<(), Fail> {
    let mut store = start(rt.alloc())?;
    let root = PageId::new(CATALOG_ROOT_PAGE_ID).unwrap();
    for n in 0..20u8 {
        assert!(rt; put_key(rt.alloc(), &mut store, root, n)?);
        assert!(rt; put_key(rt.alloc(), &mut store, root, 39 - n)?);
        assert!(rt; put_key(rt.alloc(), &mut store, root, n)?);
    }
    let keys = keys_in(rt.alloc(), &store, root, None, None)?;
    assert!(rt; keys.iter().copied().eq(0..40));
    for n in 0..20u8 {
        assert!(rt; take_key(rt.alloc(), &mut store, root, n * 2)?);
    }
    let keys = keys_in(rt.alloc(), &store, root, None, None)?;
    assert!(rt; keys.len() == 20 && keys.iter().all(|key| key % 2 == 1));
    let keys = keys_in(rt.alloc(), &store, root, Some(10), Some(14))?;
    assert!(rt; keys.contains(&11) && keys.contains(&13) && keys.len() < 20);
    Ok(())
}

#[test]
fn a_tree_begins_in_one_group_with_its_item(rt: HostRuntime) -> Result<(), Fail> {
    let mut store = start(rt.alloc())?;
    let root = PageId::new(CATALOG_ROOT_PAGE_ID).unwrap();
    let new = begin(rt.alloc(), &mut store, root, b's')?.ok_or("no space")?;
    assert_eq!(rt; new.number(), 1028);
    assert!(rt; keys_in(rt.alloc(), &store, new, None, None)?.is_empty());
    assert!(rt; put_key(rt.alloc(), &mut store, new, 5)?);
    let keys = keys_in(rt.alloc(), &store, new, None, None)?;
    assert_eq!(rt; keys.as_slice(), [5].as_slice());
    store.keep();
    let log = store.log();
    assert!(rt; log.len() > OPENING + BEGUN.len());
    assert_eq!(rt; &log[OPENING..OPENING + BEGUN.len()], BEGUN);
    Ok(())
}
