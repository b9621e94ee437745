//! The split that a change needs next.
ghost use Rattle.std.specs.Prelude.{◌≡◌, ◌≤◌, ◌<◌, ◌+◌, ◌↔◌, true, IsNone, IsOk, IfOk, IfErr, IfSome};
ghost use Rattle.page_image.specs.Meta.{IsMeta, page_count};
ghost use Rattle.page_view.specs.Leaf.{IsLeaf};
ghost use Rattle.tree_change.specs.Places.{page_on};
ghost use Rattle.tree_change.specs.Room.{lacks_room};
ghost use Rattle.tree_change.specs.Way.{IsWayTo};
ghost use Rattle.tree_change.specs.Effects.{Keeps};
ghost use Rattle.tree_change.specs.Splits.{HaveRoom, IsRootSplit, IsSplitOf, SpaceFor};

use crate::places::root_of;
use crate::root_splitting::plan_root_split;
use crate::splitting::{first_full, plan_split};
use page_image::Page;
use page_view::LeafItem;
use redo_record::{Path, Plan, TreeNo};
use rm_base::{MAX_PAGE_ID, WantOfMemory};
use std::alloc::Global;

/// The plan that splits the root, which has too little room. SpaceFull also where its level is 8.
fn split_of_root(
    alloc: Global,
    path: &Path,
    meta: &Page,
    item: &LeafItem,
) -> Result<Result<Plan, TreeNo>, WantOfMemory>
    requires way { IsWayTo item.now.key path.now }
    requires item { IsLeaf item.now }
    requires full { lacks_room item.now (page_on path.now 0) ≡ true }
    requires meta { IsMeta meta.now }
    ensures room { IfOk result (λ answer. IsOk answer ↔ (((page_on path.now 0).level < 8) × (page_count meta.now + 1 ≤ MAX_PAGE_ID))) }
    ensures no { IfOk result (λ answer. IfErr answer (λ no. no ≡ TreeNo.SpaceFull)) }
    ensures keeps { IfOk result (λ answer. IfOk answer (λ plan. Keeps item.now.key path.now meta.now plan)) }
    ensures plan { IfOk result (λ answer. IfOk answer (λ plan. IsRootSplit path.now meta.now plan)) }
{
    if root_of(path).level() < 8 {
        plan_root_split(alloc, path, meta, item)
    } else {
        Ok(Err(TreeNo::SpaceFull))
    }
}

#[tactic(auto, using(crate::proofs::SplitKinds::root_is_split))]
/// The plan that splits the first page with too little room on the way of the item's change. None where
/// each page has room. SpaceFull where the pages that it makes go past the last one, and where the root
/// would be split above level 8.
pub fn plan_room(
    alloc: Global,
    path: &Path,
    meta: &Page,
    item: &LeafItem,
) -> Result<Option<Result<Plan, TreeNo>>, WantOfMemory>
    requires way { IsWayTo item.now.key path.now }
    requires item { IsLeaf item.now }
    requires meta { IsMeta meta.now }
    ensures room { IfOk result (λ split. IsNone split ↔ HaveRoom item.now path.now) }
    ensures space { IfOk result (λ split. IfSome split (λ answer. IsOk answer
        ↔ SpaceFor (lacks_room item.now (page_on path.now 0)) (page_on path.now 0) (page_count meta.now))) }
    ensures no { IfOk result (λ split. IfSome split (λ answer. IfErr answer (λ no. no ≡ TreeNo.SpaceFull))) }
    ensures keeps { IfOk result (λ split. IfSome split (λ answer. IfOk answer (λ plan. Keeps item.now.key path.now meta.now plan))) }
    ensures plan { IfOk result (λ split. IfSome split (λ answer. IfOk answer (λ plan.
        IsSplitOf (lacks_room item.now (page_on path.now 0)) item.now path.now meta.now plan))) }
{
    match first_full(path.as_slice(), item) {
        None => Ok(None),
        Some(0) => Ok(Some(split_of_root(alloc, path, meta, item)?)),
        Some(_) => Ok(Some(plan_split(alloc, path, meta, item)?)),
    }
}
