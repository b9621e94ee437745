//! The items of a leaf, and lists of them.
ghost use Rattle.std.specs.Prelude.{◌≡◌, ◌++◌, ◌∷◌, [], ◌<◌, Some, length, slice_get, IsTrue, ◌↔◌, MatchOption, IfOk, OnOk, map, filter};
ghost use Rattle.std.specs.List.{AllByRecursion};
ghost use Rattle.page_view.specs.Leaf.{HoldsLeaf, leaf_of};
ghost use Rattle.bplus_tree.specs.Walk.{IsToRead, in_range};
ghost use Rattle.range_reader.specs.Finding.{items_in};
ghost use Rattle.range_reader.specs.Items.{items_of_leaf, key_in_range};
ghost use Rattle.range_reader.specs.Uses.{live};

use page_image::{Kind, Page};
use page_view::{LeafItem, LeafRef};
use rm_base::{Bytes, Duplicate, KeyRange, WantOfMemory};
use std::alloc::Global;
use std::cmp::Ordering;

/// The first of a list, which leaves it.
pub(crate) fn take_first(list: &mut Vec<LeafItem>) -> Option<LeafItem>
    ensures { MatchOption result ((list.old.items ≡ []) × (list.new.items ≡ []))
        (λ x. list.old.items ≡ x ∷ list.new.items) }
{
    if list.is_empty() {
        return None;
    }
    Some(list.remove(0))
}

fn copy_of_end(alloc: Global, end: &Option<Bytes>) -> Result<Option<Bytes>, WantOfMemory>
    ensures { IfOk result (λ copy. copy ≡ end.now) }
{
    match end {
        None => Ok(None),
        Some(key) => Ok(Some(key.copy(alloc)?)),
    }
}

/// The range in memory of its own.
pub fn copy_of(alloc: Global, range: &KeyRange) -> Result<KeyRange, WantOfMemory>
    ensures { IfOk result (λ copy. copy ≡ range.now) }
{
    Ok(KeyRange {
        low: copy_of_end(alloc, &range.low)?,
        high: copy_of_end(alloc, &range.high)?,
    })
}

/// The leaf item that the bytes spell.
#[tactic(auto, using(crate::proofs::ItemLaws::read_is))]
pub fn leaf_in(item: &[u8]) -> LeafRef<'_>
    requires { HoldsLeaf item.now }
    ensures { result ≡ leaf_of item.now }
{
    LeafRef::read(item).unwrap()
}

/// Whether a key lies in the range.
fn lies_in(key: &[u8], range: &KeyRange) -> bool
    ensures { result ≡ key_in_range range.now key.now }
{
    let from = match &range.low {
        None => true,
        Some(low) => key.cmp(low.as_slice()) != Ordering::Less,
    };
    let to = match &range.high {
        None => true,
        Some(high) => high.as_slice().cmp(key) != Ordering::Less,
    };
    from && to
}

/// Adds the items of a page that lie in the range.
#[tactic(auto, using(crate::proofs::ItemLaws::leaf_items, crate::proofs::ItemLaws::no_items))]
pub(crate) fn push_items(
    alloc: Global,
    todo: &mut Vec<LeafItem>,
    page: &Page,
    range: &KeyRange,
) -> Result<(), WantOfMemory>
    requires { IsToRead page.now }
    ensures { OnOk result (todo.new.items ≡ todo.old.items ++ items_in range.now page.now) }
{
    match page.kind() {
        Kind::Leaf => push_leaf(alloc, todo, page, range),
        _ => Ok(()),
    }
}

/// The bytes of the item at place i.
#[tactic(auto, using(crate::proofs::ItemLaws::holds_at))]
pub fn item_at(page: &Page, i: usize) -> &[u8]
    requires each { AllByRecursion HoldsLeaf page.now.items }
    requires there { i < length page.now.items }
    ensures is { slice_get page.now.items i ≡ Some result.now }
    ensures holds { HoldsLeaf result.now }
{
    page.item(i).unwrap()
}

fn push_leaf(
    alloc: Global,
    todo: &mut Vec<LeafItem>,
    page: &Page,
    range: &KeyRange,
) -> Result<(), WantOfMemory>
    requires { AllByRecursion HoldsLeaf page.now.items }
    ensures { OnOk result (todo.new.items ≡ todo.old.items ++ items_of_leaf range.now page.now) }
{
    for i in 0..usize::from(page.slots()) {
        push_item(alloc, todo, item_at(page, i), range)?;
    }
    Ok(())
}

fn push_item(
    alloc: Global,
    todo: &mut Vec<LeafItem>,
    item: &[u8],
    range: &KeyRange,
) -> Result<(), WantOfMemory>
    requires { HoldsLeaf item.now }
    ensures { OnOk result
        (todo.new.items ≡ todo.old.items ++ map leaf_of
        (filter (in_range range.now.low range.now.high) (item.now ∷ []))) }
{
    let leaf = leaf_in(item);
    if lies_in(leaf.key(), range) {
        todo.push(leaf.to_item(alloc)?)?;
    }
    Ok(())
}

/// Keeps a version that is not deleted.
fn push_if_live(list: &mut Vec<LeafItem>, item: LeafItem) -> Result<(), WantOfMemory>
    ensures { OnOk result (list.new.items ≡ list.old.items ++ live (Some item)) }
{
    if !item.deleted {
        list.push(item)?;
    }
    Ok(())
}

/// Keeps the version that is seen, if any is.
pub(crate) fn push_live(
    list: &mut Vec<LeafItem>,
    seen: Option<LeafItem>,
) -> Result<(), WantOfMemory>
    ensures { OnOk result (list.new.items ≡ list.old.items ++ live seen) }
{
    match seen {
        None => Ok(()),
        Some(item) => push_if_live(list, item),
    }
}
