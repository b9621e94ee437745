//! Plans that split the root.
ghost use Rattle.std.specs.Prelude.{◌≡◌, ◌≤◌, ◌<◌, ◌+◌, true, ℕ, [], ◌∷◌, ◌++◌, ◌↔◌, length, IsOk, OnOk, IfOk, IfErr};
ghost use Rattle.page_image.specs.Meta.{IsMeta, page_count};
ghost use Rattle.page_view.specs.Leaf.{IsLeaf};
ghost use Rattle.redo_record.specs.declared.plans.Plan.{Plan};
ghost use Rattle.tree_change.specs.Places.{page_on};
ghost use Rattle.tree_change.specs.Room.{lacks_room};
ghost use Rattle.tree_change.specs.Pages.{IsTreePage};
ghost use Rattle.tree_change.specs.Way.{IsWayTo};
ghost use Rattle.tree_change.specs.Effects.{Keeps};
ghost use Rattle.tree_change.specs.Splits.{root_split_plan, made_halves, made_root, IsHeavy, IsSplitPlace, IsRootSplit};

use crate::counting::push_count;
use crate::halves::{move_items, move_right_half, separator, split_place};
use crate::places::root_of;
use crate::room::keeps_rules;
use crate::spelling::inner_item_bytes;
use crate::splitting::{push_linked_to, split_of};
use page_image::{Kind, Page, page_count};
use page_view::LeafItem;
use redo_record::{Path, Plan, Record, Records, TreeNo};
use rm_base::{MAX_PAGE_ID, PageId, WantOfMemory};
use std::alloc::Global;

/// The records that make the two pages of a root split.
fn half_records(
    alloc: Global,
    root: &Page,
    at: u16,
    left: PageId,
    right: PageId,
) -> Result<Records, WantOfMemory>
    requires heavy { IsHeavy root.now.items }
    requires within { at < length root.now.items }
    ensures { IfOk result (λ records. records ≡ made_halves root.now at left right) }
{
    let kind = root.kind();
    let level = root.level();
    let mut records = Records::new(alloc);
    records.push(Record::Make {
        page: left,
        kind,
        level,
    })?;
    records.push(Record::Make {
        page: right,
        kind,
        level,
    })?;
    move_items(alloc, &mut records, root, 0, at, left, 0)?;
    move_right_half(alloc, &mut records, root, at, right)?;
    Ok(records)
}

/// Adds the records that make the root an inner page over its halves.
fn push_root(
    alloc: Global,
    records: &mut Records,
    root: &Page,
    at: u16,
    left: PageId,
    right: PageId,
) -> Result<(), WantOfMemory>
    requires heavy { IsHeavy root.now.items }
    requires within { at < length root.now.items }
    requires low { root.now.level < 8 }
    ensures { OnOk result (records.new ≡ records.old ++ made_root root.now at left right) }
{
    let page = root.page();
    records.push(Record::Cut { page, from: 0 })?;
    records.push(Record::Make {
        page,
        kind: Kind::Inner,
        level: root.level() + 1,
    })?;
    let least = inner_item_bytes(alloc, &[], left)?;
    records.push(Record::InsertSlot {
        page,
        index: 0,
        bytes: least,
    })?;
    let entry = inner_item_bytes(alloc, separator(root, at), right)?;
    records.push(Record::InsertSlot {
        page,
        index: 1,
        bytes: entry,
    })
}

/// The plan of `plan_root_split` for its root.
#[tactic(auto, using(crate::proofs::HeavyLaws::heavy))]
pub(crate) fn split_root(
    alloc: Global,
    root: &Page,
    meta: &Page,
    item: &LeafItem,
) -> Result<Result<Plan, TreeNo>, WantOfMemory>
    requires root { IsTreePage root.now }
    requires low { root.now.level < 8 }
    requires item { IsLeaf item.now }
    requires full { lacks_room item.now root.now ≡ true }
    requires meta { meta.now.kind ≡ Kind.Meta }
    ensures room { IfOk result (λ answer. IsOk answer ↔ (page_count meta.now + 1 ≤ MAX_PAGE_ID)) }
    ensures no { IfOk result (λ answer. IfErr answer (λ no. no ≡ TreeNo.SpaceFull)) }
    ensures plan { IfOk result (λ answer. IfOk answer (λ plan. (at : ℕ) × IsSplitPlace root.now.items at
        × (plan ≡ root_split_plan root.now at meta.now))) }
{
    let Some(left) = PageId::new(page_count(meta)) else {
        return Ok(Err(TreeNo::SpaceFull));
    };
    let Some(right) = PageId::new(left.number() + 1) else {
        return Ok(Err(TreeNo::SpaceFull));
    };
    let at = split_place(root);
    let mut records = half_records(alloc, root, at, left, right)?;
    push_linked_to(&mut records, root, left, right)?;
    push_root(alloc, &mut records, root, at, left, right)?;
    push_count(alloc, &mut records, meta, right.number() + 1)?;
    let pages = [root.page(), left, right, meta.page()];
    Ok(Ok(split_of(&pages, &[left, right], records)))
}

/// The plan that splits the root, which has too little room for the item's change and a level below 8.
/// SpaceFull exactly where the meta page counts 32,767 pages or more.
pub fn plan_root_split(
    alloc: Global,
    path: &Path,
    meta: &Page,
    item: &LeafItem,
) -> Result<Result<Plan, TreeNo>, WantOfMemory>
    requires way { IsWayTo item.now.key path.now }
    requires item { IsLeaf item.now }
    requires full { lacks_room item.now (page_on path.now 0) ≡ true }
    requires low { (page_on path.now 0).level < 8 }
    requires meta { IsMeta meta.now }
    ensures room { IfOk result (λ answer. IsOk answer ↔ (page_count meta.now + 1 ≤ MAX_PAGE_ID)) }
    ensures no { IfOk result (λ answer. IfErr answer (λ no. no ≡ TreeNo.SpaceFull)) }
    ensures plan { IfOk result (λ answer. IfOk answer (λ plan. IsRootSplit path.now meta.now plan)) }
    ensures keeps { IfOk result (λ answer. IfOk answer (λ plan. Keeps item.now.key path.now meta.now plan)) }
{
    let root = root_of(path);
    keeps_rules(root);
    keeps_rules(meta);
    split_root(alloc, root, meta, item)
}
