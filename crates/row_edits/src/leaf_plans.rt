//! Plans that put an item into its leaf.
ghost use Rattle.std.specs.Prelude.{◌≡◌, ◌≤◌, ◌↔◌, IsOk, IfOk};
ghost use Rattle.page_view.specs.Leaf.{IsLeaf, leaf_bytes};
ghost use Rattle.tree_change.specs.Effects.{Carries, with_item};
ghost use Rattle.tree_change.specs.Places.{leaf_on};
ghost use Rattle.tree_change.specs.Room.{room_for, size_of};
ghost use Rattle.tree_change.specs.Way.{IsWayTo};
ghost use Rattle.row_edits.specs.RowPlans as spec;

use crate::leaf_items::{find, leaf_of};
use page_view::LeafItem;
use redo_record::{Path, Plan, TreeNo};
use rm_base::WantOfMemory;
use std::alloc::Global;
use tree_change::{plan_insert, plan_update};

/// The plan that puts the item into its leaf, in the place of the one with its key where there is one.
/// NoRoom exactly where the leaf has no room for it.
#[tactic(auto, using(crate::proofs::LeafLaws::has_found, crate::proofs::LeafLaws::has_none, crate::proofs::LeafLaws::put_found, crate::proofs::LeafLaws::put_new, tree_change::proofs::WayLaws::leaf_rows, tree_change::proofs::WayLaws::some_pages))]
pub(crate) fn put_in(
    alloc: Global,
    path: &Path,
    item: &LeafItem,
) -> Result<Result<Plan, TreeNo>, WantOfMemory>
    requires way { IsWayTo item.now.key path.now }
    requires item { IsLeaf item.now }
    ensures room { IfOk result (λ answer. IsOk answer
        ↔ (size_of item.now ≤ room_for item.now.key (leaf_on path.now))) }
    ensures plan { IfOk result (λ answer. IfOk answer (λ plan.
        plan ≡ spec.put_plan (leaf_on path.now) item.now)) }
    ensures carries { IfOk result (λ answer. IfOk answer (λ plan.
        Carries item.now.key path.now plan (with_item item.now.key (leaf_bytes item.now)))) }
{
    let leaf = leaf_of(path);
    match find(leaf, item.key.as_slice()) {
        Ok(_) => plan_update(alloc, path, leaf, item),
        Err(_) => plan_insert(alloc, path, leaf, item),
    }
}
