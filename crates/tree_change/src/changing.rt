//! Plans that change one item of a leaf.
ghost use Rattle.std.specs.Prelude.{◌≡◌, ◌≤◌, ◌-◌, [], ◌∷◌, ◌++◌, ◌↔◌, length, true, IsOk, OnOk, IfOk, IfErr};
ghost use Rattle.page_image.specs.Image.{used};
ghost use Rattle.page_view.specs.Leaf.{IsLeaf, leaf_bytes};
ghost use Rattle.tree_change.specs.Places.{HasKey, leaf_on};
ghost use Rattle.tree_change.specs.Room.{size_of, room_for};
ghost use Rattle.tree_change.specs.Pages.{HasRows};
ghost use Rattle.tree_change.specs.Way.{IsWayTo};
ghost use Rattle.tree_change.specs.Changes.{change_of, insert_plan, update_plan, remove_plan};
ghost use Rattle.tree_change.specs.Effects.{Carries, with_item, without_item};

use crate::places::{leaf_of, place_in};
use crate::room::{items_fit, room_for, size_of};
use crate::spelling::leaf_item_bytes;
use page_image::Page;
use page_view::LeafItem;
use redo_record::{Path, Plan, PlanKind, Record, Records, TreeNo};
use rm_base::{Duplicate, PageId, PageList, WantOfMemory};
use std::alloc::Global;

/// A plan that changes one leaf.
fn change_of(page: PageId, records: Records) -> Plan
    ensures { result ≡ change_of page records }
{
    let mut pages = PageList::new();
    pages.try_push(page).unwrap();
    Plan {
        kind: PlanKind::Change,
        pages,
        made: PageList::new(),
        records,
    }
}

/// The plan of `plan_insert` for its leaf.
pub(crate) fn insert_into(
    alloc: Global,
    leaf: &Page,
    item: &LeafItem,
) -> Result<Result<Plan, TreeNo>, WantOfMemory>
    requires leaf { HasRows leaf.now }
    requires item { IsLeaf item.now }
    ensures room { IfOk result (λ answer. IsOk answer ↔ (size_of item.now ≤ room_for item.now.key leaf.now)) }
    ensures no { IfOk result (λ answer. IfErr answer (λ no. no ≡ TreeNo.NoRoom)) }
    ensures plan { IfOk result (λ answer. IfOk answer (λ plan. plan ≡ insert_plan leaf.now item.now)) }
{
    let key = item.key.as_slice();
    if room_for(leaf, key) < size_of(item) {
        return Ok(Err(TreeNo::NoRoom));
    }
    let page = leaf.page();
    let index = place_in(leaf, key);
    let bytes = leaf_item_bytes(alloc, item)?;
    let mut records = Records::new(alloc);
    records.push(Record::InsertSlot { page, index, bytes })?;
    Ok(Ok(change_of(page, records)))
}

/// The plan of `plan_update` for its leaf.
pub(crate) fn replace_in(
    alloc: Global,
    leaf: &Page,
    item: &LeafItem,
) -> Result<Result<Plan, TreeNo>, WantOfMemory>
    requires leaf { HasRows leaf.now }
    requires item { IsLeaf item.now }
    ensures room { IfOk result (λ answer. IsOk answer ↔ (size_of item.now ≤ room_for item.now.key leaf.now)) }
    ensures no { IfOk result (λ answer. IfErr answer (λ no. no ≡ TreeNo.NoRoom)) }
    ensures plan { IfOk result (λ answer. IfOk answer (λ plan. plan ≡ update_plan leaf.now item.now)) }
{
    let key = item.key.as_slice();
    if room_for(leaf, key) < size_of(item) {
        return Ok(Err(TreeNo::NoRoom));
    }
    let page = leaf.page();
    let index = place_in(leaf, key);
    let bytes = leaf_item_bytes(alloc, item)?;
    let mut records = Records::new(alloc);
    records.push(Record::RemoveSlot { page, index })?;
    records.push(Record::InsertSlot { page, index, bytes })?;
    Ok(Ok(change_of(page, records)))
}

/// The plan of `plan_remove` for its leaf.
pub(crate) fn remove_from(alloc: Global, leaf: &Page, key: &[u8]) -> Result<Plan, WantOfMemory>
    requires { HasRows leaf.now }
    ensures { IfOk result (λ plan. plan ≡ remove_plan leaf.now key.now) }
{
    let page = leaf.page();
    let index = place_in(leaf, key);
    let mut records = Records::new(alloc);
    records.push(Record::RemoveSlot { page, index })?;
    Ok(change_of(page, records))
}

/// The plan that puts the item into the leaf, whose key is not there. NoRoom exactly where it does not
/// fit.
pub fn plan_insert(
    alloc: Global,
    path: &Path,
    _meta: &Page,
    item: &LeafItem,
) -> Result<Result<Plan, TreeNo>, WantOfMemory>
    requires way { IsWayTo item.now.key path.now }
    requires item { IsLeaf item.now }
    requires absent { ¬ HasKey item.now.key (leaf_on path.now) }
    ensures room { IfOk result (λ answer. IsOk answer ↔ (size_of item.now ≤ room_for item.now.key (leaf_on path.now))) }
    ensures no { IfOk result (λ answer. IfErr answer (λ no. no ≡ TreeNo.NoRoom)) }
    ensures plan { IfOk result (λ answer. IfOk answer (λ plan. plan ≡ insert_plan (leaf_on path.now) item.now)) }
    ensures carries { IfOk result (λ answer. IfOk answer (λ plan.
        Carries item.now.key path.now plan (with_item item.now.key (leaf_bytes item.now)))) }
{
    insert_into(alloc, leaf_of(path), item)
}

/// The plan that puts the item in the place of the one with its key, which is there. NoRoom exactly
/// where it does not fit.
pub fn plan_update(
    alloc: Global,
    path: &Path,
    _meta: &Page,
    item: &LeafItem,
) -> Result<Result<Plan, TreeNo>, WantOfMemory>
    requires way { IsWayTo item.now.key path.now }
    requires item { IsLeaf item.now }
    requires there { HasKey item.now.key (leaf_on path.now) }
    ensures room { IfOk result (λ answer. IsOk answer ↔ (size_of item.now ≤ room_for item.now.key (leaf_on path.now))) }
    ensures no { IfOk result (λ answer. IfErr answer (λ no. no ≡ TreeNo.NoRoom)) }
    ensures plan { IfOk result (λ answer. IfOk answer (λ plan. plan ≡ update_plan (leaf_on path.now) item.now)) }
    ensures carries { IfOk result (λ answer. IfOk answer (λ plan.
        Carries item.now.key path.now plan (with_item item.now.key (leaf_bytes item.now)))) }
{
    let leaf = leaf_of(path);
    items_fit(leaf);
    replace_in(alloc, leaf, item)
}

/// The plan that marks the item with the key as deleted: the item that is handed in, which is deleted, takes
/// its place. NoRoom exactly where it does not fit.
pub fn plan_mark(
    alloc: Global,
    path: &Path,
    meta: &Page,
    item: &LeafItem,
) -> Result<Result<Plan, TreeNo>, WantOfMemory>
    requires way { IsWayTo item.now.key path.now }
    requires item { IsLeaf item.now }
    requires deleted { item.now.deleted ≡ true }
    requires there { HasKey item.now.key (leaf_on path.now) }
    ensures room { IfOk result (λ answer. IsOk answer ↔ (size_of item.now ≤ room_for item.now.key (leaf_on path.now))) }
    ensures no { IfOk result (λ answer. IfErr answer (λ no. no ≡ TreeNo.NoRoom)) }
    ensures plan { IfOk result (λ answer. IfOk answer (λ plan. plan ≡ update_plan (leaf_on path.now) item.now)) }
    ensures carries { IfOk result (λ answer. IfOk answer (λ plan.
        Carries item.now.key path.now plan (with_item item.now.key (leaf_bytes item.now)))) }
{
    plan_update(alloc, path, meta, item)
}

/// The plan that takes out the item with the key of `item`, which is there. It never answers a TreeNo.
pub fn plan_remove(
    alloc: Global,
    path: &Path,
    _meta: &Page,
    item: &LeafItem,
) -> Result<Result<Plan, TreeNo>, WantOfMemory>
    requires way { IsWayTo item.now.key path.now }
    requires there { HasKey item.now.key (leaf_on path.now) }
    ensures never { IfOk result (λ answer. IsOk answer) }
    ensures plan { IfOk result (λ answer. IfOk answer (λ plan. plan ≡ remove_plan (leaf_on path.now) item.now.key)) }
    ensures carries { IfOk result (λ answer. IfOk answer (λ plan.
        Carries item.now.key path.now plan (without_item item.now.key))) }
{
    let plan = remove_from(alloc, leaf_of(path), item.key.as_slice())?;
    Ok(Ok(plan))
}
