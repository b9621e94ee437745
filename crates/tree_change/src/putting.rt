//! Plans that put an item into a leaf whether its key is there or not, or take one out where it is there.
ghost use Rattle.std.specs.Prelude.{◌≡◌, ◌≤◌, List, ℕ, IsTrue, IsNone, IfOk, IfSome, ◌↔◌, IsSome};
ghost use Rattle.page_view.specs.Leaf.{IsLeaf, leaf_bytes};
ghost use Rattle.tree_change.specs.Places.{HasKey, leaf_on};
ghost use Rattle.tree_change.specs.Room.{size_of, room_for};
ghost use Rattle.tree_change.specs.Pages.{HasRows};
ghost use Rattle.tree_change.specs.Way.{IsWayTo};
ghost use Rattle.tree_change.specs.Changes.{IsPut, remove_plan};
ghost use Rattle.tree_change.specs.Effects.{Carries, with_item, without_item};

use crate::changing::{plan_insert, plan_remove, plan_update};
use crate::places::{found_in, leaf_of};
use page_image::Page;
use page_view::LeafItem;
use redo_record::{Path, Plan, TreeNo};
use rm_base::WantOfMemory;
use std::alloc::Global;

/// Whether an item of the leaf has the key.
fn has_key(leaf: &Page, key: &[u8]) -> bool
    requires { HasRows leaf.now }
    ensures { IsTrue result ↔ HasKey key.now leaf.now }
{
    found_in(leaf, key).is_ok()
}

/// The plan that puts the item into the leaf, or in the place of the one with its key. The leaf has room
/// for it.
pub fn plan_put(
    alloc: Global,
    path: &Path,
    meta: &Page,
    item: &LeafItem,
) -> Result<Plan, WantOfMemory>
    requires way { IsWayTo item.now.key path.now }
    requires item { IsLeaf item.now }
    requires room { size_of item.now ≤ room_for item.now.key (leaf_on path.now) }
    ensures plan { IfOk result (λ plan. IsPut (leaf_on path.now) item.now plan) }
    ensures carries { IfOk result (λ plan. Carries item.now.key path.now plan (with_item item.now.key (leaf_bytes item.now))) }
{
    let planned = if has_key(leaf_of(path), item.key.as_slice()) {
        plan_update(alloc, path, meta, item)?
    } else {
        plan_insert(alloc, path, meta, item)?
    };
    Ok(planned.unwrap())
}

/// The plan that takes out the item with the key of `item`. None where it is not there.
pub fn plan_take(
    alloc: Global,
    path: &Path,
    meta: &Page,
    item: &LeafItem,
) -> Result<Option<Plan>, WantOfMemory>
    requires { IsWayTo item.now.key path.now }
    ensures there { IfOk result (λ found. IsSome found ↔ HasKey item.now.key (leaf_on path.now)) }
    ensures plan { IfOk result (λ found. IfSome found (λ plan. plan ≡ remove_plan (leaf_on path.now) item.now.key)) }
    ensures carries { IfOk result (λ found. IfSome found (λ plan. Carries item.now.key path.now plan (without_item item.now.key))) }
    ensures absent { IfOk result (λ found. IsNone found → (w : IsWayTo item.now.key path.now) → without_item item.now.key w.items ≡ w.items) }
{
    if !has_key(leaf_of(path), item.key.as_slice()) {
        return Ok(None);
    }
    let planned = plan_remove(alloc, path, meta, item)?;
    Ok(Some(planned.unwrap()))
}
