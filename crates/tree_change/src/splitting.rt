//! Plans that split a page below the root.
ghost use Rattle.std.specs.Prelude.{◌≡◌, ◌≤◌, ◌<◌, ◌+◌, true, ℕ, [], ◌∷◌, ◌++◌, ◌↔◌, length, IsOk, OnOk, IfOk, IfErr, MatchOption};
ghost use Rattle.page_image.specs.Meta.{IsMeta, page_count};
ghost use Rattle.page_view.specs.Leaf.{IsLeaf};
ghost use Rattle.redo_record.specs.declared.plans.Plan.{Plan};
ghost use Rattle.tree_change.specs.Places.{page_on};
ghost use Rattle.tree_change.specs.Room.{lacks_room};
ghost use Rattle.tree_change.specs.Pages.{HasChildren, IsTreePage};
ghost use Rattle.tree_change.specs.Way.{IsWayTo};
ghost use Rattle.tree_change.specs.Effects.{Keeps};
ghost use Rattle.tree_change.specs.Splits.{inserts, right_half, linked_on, linked_to, split_plan, split_of, made_right, IsHeavy, IsSplitPlace, IsFirstFull, IsFirstFullOrNone, IsSplit};

use crate::counting::push_count;
use crate::halves::{move_right_half, separator, split_place};
use crate::places::place_behind;
use crate::room::{keeps_rules, lacks_room};
use crate::spelling::inner_item_bytes;
use page_image::{Kind, Page, page_count};
use page_view::LeafItem;
use redo_record::{Path, Plan, PlanKind, Record, Records, TreeNo};
use rm_base::{MAX_PAGE_ID, PageId, PageList, WantOfMemory};
use std::alloc::Global;

/// The list of the pages.
fn list_of(pages: &[PageId]) -> PageList
    requires { length pages.now ≤ 8 }
    ensures { result ≡ pages.now }
{
    let mut list = PageList::new();
    for page in pages {
        list.try_push(*page).unwrap();
    }
    list
}

/// A plan that splits a page.
pub(crate) fn split_of(pages: &[PageId], made: &[PageId], records: Records) -> Plan
    requires pages { length pages.now ≤ 8 }
    requires made { length made.now ≤ 8 }
    ensures { result ≡ split_of pages.now made.now records }
{
    Plan {
        kind: PlanKind::Split,
        pages: list_of(pages),
        made: list_of(made),
        records,
    }
}

/// Adds the record that links a new page to where the old one was linked, if anywhere.
fn push_linked_on(records: &mut Records, page: PageId, next: u32) -> Result<(), WantOfMemory>
    ensures { OnOk result (records.new ≡ records.old ++ linked_on page next) }
{
    if next == 0 {
        return Ok(());
    }
    records.push(Record::Link { page, next })
}

/// Adds the record that links a leaf to its new right neighbour. Inner pages are not linked.
pub(crate) fn push_linked_to(
    records: &mut Records,
    split: &Page,
    page: PageId,
    right: PageId,
) -> Result<(), WantOfMemory>
    ensures { OnOk result (records.new ≡ records.old ++ linked_to split.now page right) }
{
    if split.kind() == Kind::Inner {
        return Ok(());
    }
    records.push(Record::Link {
        page,
        next: right.number(),
    })
}

/// The records that make the new page of a split.
fn right_records(alloc: Global, page: &Page, at: u16, new: PageId) -> Result<Records, WantOfMemory>
    requires heavy { IsHeavy page.now.items }
    requires within { at < length page.now.items }
    ensures { IfOk result (λ records. records ≡ made_right page.now at new) }
{
    let mut records = Records::new(alloc);
    records.push(Record::Make {
        page: new,
        kind: page.kind(),
        level: page.level(),
    })?;
    move_right_half(alloc, &mut records, page, at, new)?;
    push_linked_on(&mut records, new, page.next())?;
    Ok(records)
}

/// The plan of `plan_split` for one page and its parent.
#[tactic(auto, using(crate::proofs::HeavyLaws::heavy))]
pub(crate) fn split_below(
    alloc: Global,
    parent: &Page,
    page: &Page,
    meta: &Page,
    item: &LeafItem,
) -> Result<Result<Plan, TreeNo>, WantOfMemory>
    requires parent { HasChildren parent.now }
    requires page { IsTreePage page.now }
    requires item { IsLeaf item.now }
    requires full { lacks_room item.now page.now ≡ true }
    requires meta { meta.now.kind ≡ Kind.Meta }
    ensures room { IfOk result (λ answer. IsOk answer ↔ (page_count meta.now ≤ MAX_PAGE_ID)) }
    ensures no { IfOk result (λ answer. IfErr answer (λ no. no ≡ TreeNo.SpaceFull)) }
    ensures plan { IfOk result (λ answer. IfOk answer (λ plan. (at : ℕ) × IsSplitPlace page.now.items at
        × (plan ≡ split_plan item.now.key parent.now page.now at meta.now))) }
{
    let Some(new) = PageId::new(page_count(meta)) else {
        return Ok(Err(TreeNo::SpaceFull));
    };
    let at = split_place(page);
    let mut records = right_records(alloc, page, at, new)?;
    push_linked_to(&mut records, page, page.page(), new)?;
    records.push(Record::Cut {
        page: page.page(),
        from: at,
    })?;
    let entry = inner_item_bytes(alloc, separator(page, at), new)?;
    records.push(Record::InsertSlot {
        page: parent.page(),
        index: place_behind(parent, item.key.as_slice()),
        bytes: entry,
    })?;
    push_count(alloc, &mut records, meta, new.number() + 1)?;
    let pages = [parent.page(), page.page(), new, meta.page()];
    Ok(Ok(split_of(&pages, &[new], records)))
}

/// The first page of the path with too little room, where there is one.
pub(crate) fn first_full(path: &[Page], item: &LeafItem) -> Option<usize>
    requires pages { (i : ℕ) → i < length path.now → IsTreePage (page_on path.now i) }
    requires item { IsLeaf item.now }
    ensures { IsFirstFullOrNone item.now path.now result }
{
    for (i, page) in path.iter().enumerate() {
        if lacks_room(page, item) {
            return Some(i);
        }
    }
    None
}

/// The place above the first page of the path with too little room, which is not the root.
fn above_full(path: &[Page], item: &LeafItem) -> usize
    requires pages { (i : ℕ) → i < length path.now → IsTreePage (page_on path.now i) }
    requires item { IsLeaf item.now }
    requires full { (above : ℕ) × IsFirstFull item.now path.now (above + 1) }
    ensures { IsFirstFull item.now path.now (result + 1) }
{
    let at = first_full(path, item).unwrap();
    at - 1
}

/// The plan that splits the first page with too little room, which is not the root, on the way of the
/// item's change. SpaceFull exactly where the meta page counts 32,768 pages or more.
pub fn plan_split(
    alloc: Global,
    path: &Path,
    meta: &Page,
    item: &LeafItem,
) -> Result<Result<Plan, TreeNo>, WantOfMemory>
    requires way { IsWayTo item.now.key path.now }
    requires item { IsLeaf item.now }
    requires full { (above : ℕ) × IsFirstFull item.now path.now (above + 1) }
    requires meta { IsMeta meta.now }
    ensures room { IfOk result (λ answer. IsOk answer ↔ (page_count meta.now ≤ MAX_PAGE_ID)) }
    ensures no { IfOk result (λ answer. IfErr answer (λ no. no ≡ TreeNo.SpaceFull)) }
    ensures plan { IfOk result (λ answer. IfOk answer (λ plan. IsSplit item.now path.now meta.now plan)) }
    ensures keeps { IfOk result (λ answer. IfOk answer (λ plan. Keeps item.now.key path.now meta.now plan)) }
{
    let pages = path.as_slice();
    let above = above_full(pages, item);
    keeps_rules(&pages[above + 1]);
    keeps_rules(meta);
    split_below(alloc, &pages[above], &pages[above + 1], meta, item)
}
