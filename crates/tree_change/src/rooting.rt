//! The plan that puts an item into a tree and begins another one.
ghost use Rattle.std.specs.Prelude.{◌≡◌, ◌≤◌, ◌+◌, length, IfOk};
ghost use Rattle.redo_record.specs.declared.plans.Plan.{Plan};
ghost use Rattle.page_view.specs.Leaf.{IsLeaf, leaf_bytes};
ghost use Rattle.tree_change.specs.Places.{leaf_on};
ghost use Rattle.tree_change.specs.Room.{size_of, room_for};
ghost use Rattle.tree_change.specs.Way.{IsWayTo};
ghost use Rattle.page_image.specs.Meta.{IsMeta, page_count};
ghost use Rattle.tree_change.specs.Changes.{IsPut, with_root};
ghost use Rattle.tree_change.specs.Effects.{Begins, with_item};

use crate::counting::push_count;
use crate::putting::plan_put;
use crate::room::keeps_rules;
use page_image::{Kind, Page, page_count};
use page_view::LeafItem;
use redo_record::{Path, Plan, PlanKind, Record};
use rm_base::{MAX_PAGE_ID, PageId, PageList, WantOfMemory};
use std::alloc::Global;

/// The plan, and besides the page becomes an empty leaf, and is counted.
fn with_root(alloc: Global, plan: Plan, meta: &Page, new: PageId) -> Result<Plan, WantOfMemory>
    requires pages { length plan.pages ≤ 6 }
    requires new { new ≡ page_count meta.now }
    ensures { IfOk result (λ more. more ≡ with_root plan meta.now) }
{
    let Plan {
        kind: _,
        mut pages,
        made: _,
        mut records,
    } = plan;
    pages.try_push(new).unwrap();
    pages.try_push(meta.page()).unwrap();
    records.push(Record::Make {
        page: new,
        kind: Kind::Leaf,
        level: 0,
    })?;
    push_count(alloc, &mut records, meta, new.number() + 1)?;
    let mut made = PageList::new();
    made.try_push(new).unwrap();
    Ok(Plan {
        kind: PlanKind::Change,
        pages,
        made,
        records,
    })
}

/// The plan that puts the item into its leaf, which has room for it, and makes the page that the meta
/// page counts next, which can be made, the root of an empty tree.
pub fn plan_with_root(
    alloc: Global,
    path: &Path,
    meta: &Page,
    item: &LeafItem,
) -> Result<Plan, WantOfMemory>
    requires way { IsWayTo item.now.key path.now }
    requires item { IsLeaf item.now }
    requires room { size_of item.now ≤ room_for item.now.key (leaf_on path.now) }
    requires meta { IsMeta meta.now }
    requires next { page_count meta.now ≤ MAX_PAGE_ID }
    ensures plan { IfOk result (λ plan. (put : Plan) × IsPut (leaf_on path.now) item.now put × (plan ≡ with_root put meta.now)) }
    ensures begins { IfOk result (λ plan. Begins item.now.key path.now meta.now plan (with_item item.now.key (leaf_bytes item.now))) }
{
    keeps_rules(meta);
    let new = PageId::new(page_count(meta)).unwrap();
    let put = plan_put(alloc, path, meta, item)?;
    with_root(alloc, put, meta, new)
}
