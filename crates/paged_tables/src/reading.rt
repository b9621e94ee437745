ghost use Rattle.std.specs.Prelude.{◌≡◌, ◌≤◌, ◌<◌, ◌++◌, ◌∷◌, [], ℕ, List, Some, length, map, filter, slice_get, Contains, IsSome, IfSome, IfOk, OnOk};
ghost use Rattle.std.specs.List.{AllByRecursion};
ghost use Rattle.page_view.specs.Keys.{keys_of, IsFound};
ghost use Rattle.page_view.specs.Leaf.{IsLeaf, HoldsLeaf, leaf_bytes};
ghost use Rattle.bplus_tree.specs.Found.{items_of};
ghost use Rattle.bplus_tree.specs.Walk as walk;
ghost use Rattle.tree_change.specs.Pages.{HasRows};
ghost use Rattle.page_store.specs.Stored.{pages_of};
ghost use Rattle.bplus_tree.specs.Forest.{Forest, IsRoot};
ghost use Rattle.sql_meaning.specs.Ranges.{is_past, is_before};
ghost use Rattle.sql_meaning.specs.Ranges as ranges;
ghost use Rattle.paged_tables.specs.Places.{IsFirst, IsEnd};

use crate::items::LeafItems;
use page_image::Page;
use page_store::PageStore;
use page_view::{LeafRef, LeafView};
use rm_base::{Bytes, Duplicate, KeyRange, PageId, WantOfMemory};
use std::alloc::Global;
use std::cmp::Ordering;
use tree_store::leaves_in;

/// Whether the key is not below a low end.
fn is_past(low: &Option<Bytes>, key: &[u8]) -> bool
    ensures { result ≡ is_past low.now key.now }
{
    match low {
        None => true,
        Some(low) => low.as_slice().cmp(key) != Ordering::Greater,
    }
}

/// Whether the key is not above a high end.
fn is_before(key: &[u8], high: &Option<Bytes>) -> bool
    ensures { result ≡ is_before key.now high.now }
{
    match high {
        None => true,
        Some(high) => key.cmp(high.as_slice()) != Ordering::Greater,
    }
}

/// Whether the key lies in the range.
fn in_range(key: &[u8], range: &KeyRange) -> bool
    ensures { result ≡ ranges.in_range key.now range.now }
{
    is_past(&range.low, key) && is_before(key, &range.high)
}

fn copy_of_end(alloc: Global, end: &Option<Bytes>) -> Result<Option<Bytes>, WantOfMemory>
    ensures { IfOk result (λ copy. copy ≡ end.now) }
{
    match end {
        None => Ok(None),
        Some(key) => Ok(Some(key.copy(alloc)?)),
    }
}

fn copy_of(alloc: Global, range: &KeyRange) -> Result<KeyRange, WantOfMemory>
    ensures { IfOk result (λ copy. copy ≡ range.now) }
{
    Ok(KeyRange {
        low: copy_of_end(alloc, &range.low)?,
        high: copy_of_end(alloc, &range.high)?,
    })
}

/// The leaf item that the bytes spell.
fn leaf_in(item: &[u8]) -> Option<LeafRef<'_>>
    requires { HoldsLeaf item.now }
    ensures there { IsSome result }
    ensures spelled { IfSome result (λ leaf. item.now ≡ leaf_bytes leaf) }
    ensures is_leaf { IfSome result IsLeaf }
{
    LeafRef::read(item)
}

/// The leaf item at place i of a leaf.
fn leaf_at(page: &Page, i: usize) -> LeafRef<'_>
    requires rows { HasRows page.now }
    requires there { i < length page.now.items }
    ensures spelled { slice_get page.now.items i ≡ Some (leaf_bytes result) }
    ensures is_leaf { IsLeaf result }
{
    leaf_in(page.item(i).unwrap()).unwrap()
}

/// Adds the item, where its key lies in the range.
fn push_in_range(
    alloc: Global,
    found: &mut LeafItems,
    leaf: &LeafRef<'_>,
    range: &KeyRange,
) -> Result<(), WantOfMemory>
    ensures spelled { OnOk result (map leaf_bytes found.new
        ≡ map leaf_bytes found.old ++ filter (λ item. ranges.in_range leaf.now.key range.now) (leaf_bytes leaf.now ∷ [])) }
    ensures are_leaves { IsLeaf leaf.now → AllByRecursion IsLeaf found.old → OnOk result (AllByRecursion IsLeaf found.new) }
{
    if in_range(leaf.key(), range) {
        found.push(leaf.to_item(alloc)?)?;
    }
    Ok(())
}

/// Where a key stands on a leaf.
fn find(page: &Page, key: &[u8]) -> Result<usize, usize>
    requires { HasRows page.now }
    ensures { IsFound (keys_of page.now.items) key.now result }
{
    LeafView::over(page).unwrap().find(key)
}

/// How many keys of a leaf are below a range's low end.
#[tactic(auto, using(crate::proofs::PlaceLaws::first_found, crate::proofs::PlaceLaws::first_within))]
fn first_place(page: &Page, low: &Option<Bytes>) -> usize
    requires { HasRows page.now }
    ensures within { result ≤ length page.now.items }
    ensures first { IsFirst low.now (keys_of page.now.items) result }
{
    match low {
        None => 0,
        Some(low) => match find(page, low.as_slice()) {
            Ok(place) | Err(place) => place,
        },
    }
}

/// The place behind the last key of a leaf that is not past a range's high end.
#[tactic(auto, using(crate::proofs::PlaceLaws::end_found, crate::proofs::PlaceLaws::first_within))]
fn end_place(page: &Page, high: &Option<Bytes>) -> usize
    requires { HasRows page.now }
    ensures within { result ≤ length page.now.items }
    ensures end { IsEnd high.now (keys_of page.now.items) result }
{
    let count = usize::from(page.slots());
    match high {
        None => count,
        Some(high) => match find(page, high.as_slice()) {
            Ok(place) => place + 1,
            Err(place) => place,
        },
    }
}

/// Adds the items of a leaf whose keys lie in the range. Only these and two searches by halves are looked at.
#[tactic(auto, using(crate::proofs::PlaceLaws::none_before, crate::proofs::PlaceLaws::all_before, crate::proofs::PlaceLaws::later_end))]
fn push_items(
    alloc: Global,
    found: &mut LeafItems,
    page: &Page,
    range: &KeyRange,
) -> Result<(), WantOfMemory>
    requires { HasRows page.now }
    ensures spelled { OnOk result (map leaf_bytes found.new
        ≡ map leaf_bytes found.old ++ filter (walk.in_range range.now.low range.now.high) page.now.items) }
    ensures are_leaves { AllByRecursion IsLeaf found.old → OnOk result (AllByRecursion IsLeaf found.new) }
{
    let first = first_place(page, &range.low);
    let end = end_place(page, &range.high).max(first);
    for i in first..end {
        push_in_range(alloc, found, &leaf_at(page, i), range)?;
    }
    Ok(())
}

/// A leaf of the store.
fn leaf_of(store: &PageStore, p: PageId) -> &Page
    requires { HasRows (pages_of store.now p) }
    ensures { result.now ≡ pages_of store.now p }
{
    match store.page(p) {
        Some(page) => page,
        None => unreachable!(),
    }
}

/// The items of leaves whose keys lie in the range, one leaf after the other.
fn items_of_leaves(
    alloc: Global,
    store: &PageStore,
    leaves: &[PageId],
    range: &KeyRange,
) -> Result<LeafItems, WantOfMemory>
    requires { AllByRecursion (λ leaf. HasRows (pages_of store.now leaf)) leaves.now }
    ensures spelled { IfOk result (λ found. map leaf_bytes found
        ≡ filter (walk.in_range range.now.low range.now.high) (items_of (pages_of store.now) leaves.now)) }
    ensures are_leaves { IfOk result (AllByRecursion IsLeaf) }
{
    let mut found = LeafItems::new(alloc);
    for leaf in leaves {
        push_items(alloc, &mut found, leaf_of(store, *leaf), range)?;
    }
    Ok(found)
}

/// The items of a tree whose keys lie in the range, in their order.
pub(crate) fn items_in(
    alloc: Global,
    store: &PageStore,
    root: PageId,
    range: &KeyRange,
) -> Result<LeafItems, WantOfMemory>
    requires { IsRoot (pages_of store.now) root }
    ensures spelled { (roots : List ℕ) (items : ℕ → List (List ℕ)) → Forest (pages_of store.now) roots items → Contains roots root
        → IfOk result (λ found. map leaf_bytes found ≡ filter (walk.in_range range.now.low range.now.high) (items root)) }
    ensures are_leaves { IfOk result (AllByRecursion IsLeaf) }
{
    let leaves = leaves_in(alloc, store, root, copy_of(alloc, range)?)?;
    items_of_leaves(alloc, store, leaves.as_slice(), range)
}
