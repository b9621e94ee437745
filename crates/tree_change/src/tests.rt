ghost use Rattle.std.specs.Prelude.{◌≡◌, IsTrue, IfSome};
ghost use Rattle.page_view.specs.Leaf.{IsLeaf};
ghost use Rattle.bplus_tree.specs.Walk.{IsToRead};
ghost use Rattle.tree_change.specs.Pages.{HasChildren};

use crate::changing::{insert_into, replace_in};
use crate::places::found_in;
use crate::room::lacks_room;
use crate::root_splitting::split_root;
use crate::splitting::split_below;
use bplus_tree::can_be_read;
use page_image::{Kind, Page};
use page_view::{InnerView, LeafItem, LeafView};
use redo_record::{Path, Plan, Record, TreeNo, apply};
use rm_base::{
    Bytes, Duplicate, Items, Lsn, MAX_KEY_BYTES, MAX_RECORD_BYTES, PageId, RECORD_OVERHEAD_BYTES,
    TrxId, UndoPtr, WantOfMemory,
};
use std::alloc::Global;
use std::test::Fail;

/// The number of the first page that is not the meta page.
const FIRST: u32 = 1028;

/// Pages: the meta page, and those from the first one on.
#[derive(Drop)]
struct Store {
    meta: Page,
    pages: Vec<Page>,
    lsn: u64,
}

/// A meta page that counts so many pages.
fn meta_page(alloc: Global, count: u32) -> Result<Option<Page>, WantOfMemory> {
    let mut page = Page::blank(alloc, PageId::new(0).unwrap())?;
    if !page.can_make(Kind::Meta, 0) {
        return Ok(None);
    }
    page.make(Kind::Meta, 0, Lsn::new(1));
    let bytes = count.to_be_bytes();
    if page.lsn().number() > 1 || !page.can_patch(36, &bytes) {
        return Ok(None);
    }
    page.patch(36, &bytes, Lsn::new(1));
    Ok(Some(page))
}

/// A tree of one empty leaf, which is the first page.
fn empty_tree(alloc: Global) -> Result<Option<Store>, WantOfMemory> {
    let Some(meta) = meta_page(alloc, FIRST + 1)? else {
        return Ok(None);
    };
    let mut root = Page::blank(alloc, PageId::new(FIRST).unwrap())?;
    if !root.can_make(Kind::Leaf, 0) {
        return Ok(None);
    }
    root.make(Kind::Leaf, 0, Lsn::new(1));
    let mut pages = Vec::new(alloc);
    pages.push(root)?;
    Ok(Some(Store {
        meta,
        pages,
        lsn: 1,
    }))
}

/// The page of that number, where it is there and can be read.
fn page_at(store: &Store, number: u32) -> Option<&Page>
    ensures { IfSome result (λ page. IsToRead page.now) }
{
    if number < FIRST {
        return None;
    }
    let page = store.pages.get((number - FIRST) as usize)?;
    if can_be_read(page) { Some(page) } else { None }
}

/// Does a record to its page. False where it does not apply.
fn done(page: &mut Page, r: &Record, lsn: u64) -> bool {
    if r.page() != page.page() || lsn < 1 || lsn < page.lsn().number() {
        return false;
    }
    apply(page, r, Lsn::new(lsn)).is_ok()
}

/// Does a record of the group with the store's LSN.
fn step(store: &mut Store, r: &Record) -> bool {
    let lsn = store.lsn;
    let number = r.page().number();
    if number < FIRST {
        return done(&mut store.meta, r, lsn);
    }
    match store.pages.get_mut((number - FIRST) as usize) {
        Some(page) => done(page, r, lsn),
        None => false,
    }
}

/// Does the records of a plan as the next group. False where one does not apply or the plan has more than
/// four pages.
fn install(alloc: Global, store: &mut Store, plan: &Plan) -> Result<bool, WantOfMemory> {
    store.lsn = store.lsn.saturating_add(1);
    for made in plan.made.as_slice() {
        store.pages.push(Page::blank(alloc, *made)?)?;
    }
    for r in plan.records.as_slice() {
        if !step(store, r) {
            return Ok(false);
        }
    }
    Ok(plan.pages.as_slice().len() <= 4)
}

/// The child of an inner page that holds the key. None on a leaf.
fn child_of(page: &Page, key: &[u8]) -> Option<u32> {
    let view = InnerView::over(page)?;
    if view.count() == 0 || !view.keys_ascend() || !view.least_is_empty() {
        return None;
    }
    let item = view.item(view.child_for(key))?;
    Some(item.child().number())
}

/// The way from the root to the leaf of the key. None where it ends before a leaf.
fn way(alloc: Global, store: &Store, key: &[u8]) -> Result<Option<Path>, WantOfMemory> {
    let mut path = Items::new(alloc);
    let mut number = FIRST;
    for _ in 0..9 {
        let Some(page) = page_at(store, number) else {
            return Ok(None);
        };
        path.push(page.copy(alloc)?)?;
        match child_of(page, key) {
            Some(child) => number = child,
            None => return Ok(Some(path)),
        }
    }
    Ok(None)
}

/// Whether the item is within the limits of one, and has no older version.
fn within_limits(item: &LeafItem) -> bool
    ensures { IsTrue result → IsLeaf item.now }
{
    let _trx = item.trx.number();
    if item.older.page > 0 {
        return false;
    }
    if item.older.slot > 0 {
        return false;
    }
    let key = item.key.len();
    let value = item.value.len();
    if key > MAX_KEY_BYTES {
        return false;
    }
    if value > MAX_RECORD_BYTES {
        return false;
    }
    if RECORD_OVERHEAD_BYTES + key + value > MAX_RECORD_BYTES {
        return false;
    }
    true
}

/// An item with the key and so many bytes of value.
fn item_of(
    alloc: Global,
    key: &[u8],
    value: usize,
    deleted: bool,
) -> Result<LeafItem, WantOfMemory> {
    let mut bytes = Bytes::new(alloc);
    bytes.append(key)?;
    Ok(LeafItem {
        key: bytes,
        deleted,
        trx: TrxId::new(7),
        older: UndoPtr { page: 0, slot: 0 },
        value: Items::from_vec(vec![in alloc; 9u8; value]?),
    })
}

/// The place of the first page of the path that has too little room.
#[tactic(auto, using(crate::proofs::ReadLaws::tree_page_read))]
fn full_at(path: &[Page], item: &LeafItem) -> Option<usize>
    requires { IsLeaf item.now }
{
    for (i, page) in path.iter().enumerate() {
        if can_be_read(page) && lacks_room(page, item) {
            return Some(i);
        }
    }
    None
}

/// The plan that splits the root.
#[tactic(auto, using(crate::proofs::ReadLaws::tree_page_read))]
fn root_plan(
    alloc: Global,
    root: &Page,
    meta: &Page,
    item: &LeafItem,
) -> Result<Option<Result<Plan, TreeNo>>, WantOfMemory>
    requires { IsLeaf item.now }
{
    if !can_be_read(root)
        || !lacks_room(root, item)
        || root.level() >= 8
        || meta.kind() != Kind::Meta
    {
        return Ok(None);
    }
    Ok(Some(split_root(alloc, root, meta, item)?))
}

/// Whether the page is an inner page that can be read.
fn is_parent(page: &Page) -> bool
    ensures { IsTrue result → HasChildren page.now }
{
    match page.kind() {
        Kind::Inner => can_be_read(page),
        _ => false,
    }
}

/// The plan that splits a page below its parent.
#[tactic(auto, using(crate::proofs::ReadLaws::tree_page_read))]
fn below_plan(
    alloc: Global,
    parent: &Page,
    page: &Page,
    meta: &Page,
    item: &LeafItem,
) -> Result<Option<Result<Plan, TreeNo>>, WantOfMemory>
    requires { IsLeaf item.now }
{
    if !can_be_read(page) || !lacks_room(page, item) || meta.kind() != Kind::Meta {
        return Ok(None);
    }
    if !is_parent(parent) {
        return Ok(None);
    }
    Ok(Some(split_below(alloc, parent, page, meta, item)?))
}

/// The plan that puts the item into the leaf, or in the place of the one with its key.
#[tactic(auto, using(crate::proofs::ReadLaws::rows_read))]
fn leaf_plan(
    alloc: Global,
    leaf: &Page,
    item: &LeafItem,
) -> Result<Option<Result<Plan, TreeNo>>, WantOfMemory>
    requires { IsLeaf item.now }
{
    if !can_be_read(leaf) || leaf.kind() != Kind::Leaf {
        return Ok(None);
    }
    let planned = match found_in(leaf, item.key.as_slice()) {
        Ok(_) => replace_in(alloc, leaf, item)?,
        Err(_) => insert_into(alloc, leaf, item)?,
    };
    Ok(Some(planned))
}

/// The plan of the next step of the item's change: a split where a page has too little room.
fn next_plan(
    alloc: Global,
    store: &Store,
    path: &[Page],
    item: &LeafItem,
) -> Result<Option<Result<Plan, TreeNo>>, WantOfMemory> {
    if !within_limits(item) {
        return Ok(None);
    }
    match full_at(path, item) {
        None => match path.last() {
            Some(leaf) => leaf_plan(alloc, leaf, item),
            None => Ok(None),
        },
        Some(0) => match path.first() {
            Some(root) => root_plan(alloc, root, &store.meta, item),
            None => Ok(None),
        },
        Some(i) => match (path.get(i - 1), path.get(i)) {
            (Some(parent), Some(page)) => below_plan(alloc, parent, page, &store.meta, item),
            _ => Ok(None),
        },
    }
}

/// Does the next step of putting the item in: true where it was the change, false where it was a split.
/// None where it fails.
fn one_step(
    alloc: Global,
    store: &mut Store,
    item: &LeafItem,
) -> Result<Option<bool>, WantOfMemory> {
    let Some(path) = way(alloc, store, item.key.as_slice())? else {
        return Ok(None);
    };
    let Some(Ok(plan)) = next_plan(alloc, store, path.as_slice(), item)? else {
        return Ok(None);
    };
    if !install(alloc, store, &plan)? {
        return Ok(None);
    }
    Ok(Some(plan.made.as_slice().is_empty()))
}

/// Puts the item in, with the splits that it needs. False where a step fails.
fn put(alloc: Global, store: &mut Store, item: &LeafItem) -> Result<bool, WantOfMemory> {
    for _ in 0..20 {
        match one_step(alloc, store, item)? {
            Some(false) => {}
            Some(true) => return Ok(true),
            None => return Ok(false),
        }
    }
    Ok(false)
}

/// The first leaf of the tree.
fn first_leaf(alloc: Global, store: &Store) -> Result<Option<u32>, WantOfMemory> {
    let Some(path) = way(alloc, store, &[])? else {
        return Ok(None);
    };
    match path.as_slice().last() {
        Some(leaf) => Ok(Some(leaf.page().number())),
        None => Ok(None),
    }
}

/// Adds the items of a leaf to the list.
fn add_items(leaf: &Page, rows: &mut Vec<LeafItem>, alloc: Global) -> Result<bool, WantOfMemory> {
    let Some(view) = LeafView::over(leaf) else {
        return Ok(false);
    };
    for i in 0..view.count() {
        let Some(item) = view.item(i) else {
            return Ok(false);
        };
        rows.push(item.to_item(alloc)?)?;
    }
    Ok(true)
}

/// The items of all leaves, from the first along the links. None where the links do not end.
fn listed(alloc: Global, store: &Store) -> Result<Option<Vec<LeafItem>>, WantOfMemory> {
    let mut rows = Vec::new(alloc);
    let Some(mut number) = first_leaf(alloc, store)? else {
        return Ok(None);
    };
    for _ in 0..1000 {
        let Some(leaf) = page_at(store, number) else {
            return Ok(None);
        };
        if !add_items(leaf, &mut rows, alloc)? {
            return Ok(None);
        }
        number = leaf.next();
        if number == 0 {
            return Ok(Some(rows));
        }
    }
    Ok(None)
}

/// The key of an INT above zero.
fn int_key(n: u64) -> [u8; 8] {
    (n | 1 << 63).to_be_bytes()
}

#[test]
fn keys_put_in_downwards_are_listed_upwards(rt: HostRuntime) -> Result<(), Fail> {
    let mut store = empty_tree(rt.alloc())?.ok_or("no tree")?;
    for n in 0..300u64 {
        let item = item_of(rt.alloc(), &int_key(300 - n), 900, false)?;
        assert!(rt; put(rt.alloc(), &mut store, &item)?, "{n}");
    }
    let rows = listed(rt.alloc(), &store)?.ok_or("no list")?;
    assert_eq!(rt; rows.len(), 300);
    let mut n = 1u64;
    for row in &rows {
        assert_eq!(rt; row.key.as_slice(), int_key(n).as_slice());
        assert_eq!(rt; row.value.len(), 900);
        n = n.wrapping_add(1);
    }
    assert_eq!(rt; store.pages.first().map(|root| root.level()), Some(2));
    Ok(())
}

/// A key of 64 bytes.
fn long_key(n: u64) -> [u8; 64] {
    let mut key = [b'k'; 64];
    key[56..].copy_from_slice(&n.to_be_bytes());
    key
}

/// Whether the root is an inner page with too little room for one more entry.
fn root_is_full(store: &Store) -> bool {
    match page_at(store, FIRST) {
        Some(root) => root.level() == 1 && root.free() < 71,
        None => false,
    }
}

#[test]
fn an_update_of_equal_size_splits_an_inner_page_without_room(rt: HostRuntime) -> Result<(), Fail> {
    let mut store = empty_tree(rt.alloc())?.ok_or("no tree")?;
    let mut n = 1u64;
    for _ in 0..400 {
        if !root_is_full(&store) {
            let item = item_of(rt.alloc(), &long_key(n), 900, false)?;
            let changed = one_step(rt.alloc(), &mut store, &item)?.ok_or("a step failed")?;
            n = n.wrapping_add(u64::from(changed));
        }
    }
    assert!(rt; root_is_full(&store));
    let pages = store.pages.len();
    let item = item_of(rt.alloc(), &long_key(1), 900, true)?;
    for level in [2, 2] {
        assert!(rt; put(rt.alloc(), &mut store, &item)?);
        assert_eq!(rt; store.pages.len(), pages.saturating_add(2));
        assert_eq!(rt; store.pages.first().map(|root| root.level()), Some(level));
    }
    Ok(())
}

#[test]
fn the_empty_key_and_the_largest_item_fit(rt: HostRuntime) -> Result<(), Fail> {
    let mut store = empty_tree(rt.alloc())?.ok_or("no tree")?;
    let least = item_of(rt.alloc(), &[], 0, false)?;
    let largest = item_of(rt.alloc(), &[b'k'; 64], 920, false)?;
    for item in [&largest, &least] {
        assert!(rt; put(rt.alloc(), &mut store, item)?);
    }
    let rows = listed(rt.alloc(), &store)?.ok_or("no list")?;
    assert_eq!(rt; rows.len(), 2);
    assert!(rt; rows[0].key.is_empty());
    assert_eq!(rt; rows[1].value.len(), 920);
    let page = page_at(&store, FIRST).ok_or("no page")?;
    assert_eq!(rt; page.item(1).map(|item| item.len()), Some(1000));
    Ok(())
}

/// Whether a plan is there, or SpaceFull in its place.
fn fits(planned: Option<Result<Plan, TreeNo>>) -> Option<bool> {
    match planned {
        Some(Ok(_)) => Some(true),
        Some(Err(TreeNo::SpaceFull)) => Some(false),
        _ => None,
    }
}

/// Whether a split below the root, and one of the root, has its pages where the meta page counts so many.
fn both_fit(
    alloc: Global,
    parent: &Page,
    full: &Page,
    item: &LeafItem,
    count: u32,
) -> Result<(Option<bool>, Option<bool>), WantOfMemory> {
    let Some(meta) = meta_page(alloc, count)? else {
        return Ok((None, None));
    };
    if !within_limits(item) {
        return Ok((None, None));
    }
    let below = below_plan(alloc, parent, full, &meta, item)?;
    let root = root_plan(alloc, full, &meta, item)?;
    Ok((fits(below), fits(root)))
}

#[test]
fn splits_make_pages_up_to_the_last_one(rt: HostRuntime) -> Result<(), Fail> {
    let mut store = empty_tree(rt.alloc())?.ok_or("no tree")?;
    for n in 1..5u64 {
        let item = item_of(rt.alloc(), &int_key(n), 900, false)?;
        assert!(rt; put(rt.alloc(), &mut store, &item)?);
    }
    let item = item_of(rt.alloc(), &int_key(9), 900, false)?;
    let full = store.pages.first().ok_or("no root")?.copy(rt.alloc())?;
    assert!(rt; put(rt.alloc(), &mut store, &item)?);
    let root = page_at(&store, FIRST).ok_or("no root")?;
    for (count, one, two) in [
        (32766, true, true),
        (32767, true, false),
        (32768, false, false),
    ] {
        let both = both_fit(rt.alloc(), root, &full, &item, count)?;
        assert_eq!(rt; both, (Some(one), Some(two)), "{count}");
    }
    Ok(())
}
