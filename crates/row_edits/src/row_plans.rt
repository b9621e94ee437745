//! The plan of a row's change.
ghost use Rattle.std.specs.Prelude.{◌≡◌, ◌≤◌, ◌+◌, ◌++◌, ◌∷◌, ◌↔◌, [], Some, length, true, IfOk, IsErr, OnOk};
ghost use Rattle.page_image.specs.declared.kind.Kind.TheVariants as kind;
ghost use Rattle.rm_base.specs.Fields.{field};
ghost use Rattle.page_image.specs.Meta as counters;
ghost use Rattle.page_image.specs.Meta.{IsMeta, IsSlots};
ghost use Rattle.page_image.specs.Rules.{IsImage};
ghost use Rattle.undo_versions.specs.Appending.{NeedsPage};
ghost use Rattle.page_view.specs.Leaf.{IsLeaf};
ghost use Rattle.page_view.specs.Undo.{IsUndo};
ghost use Rattle.commit_stamps.specs.Effects.{Points};
ghost use Rattle.commit_stamps.specs.Plans.{points};
ghost use Rattle.undo_versions.specs.Reading.{undone_of};
ghost use Rattle.tree_change.specs.Way.{IsWayTo};
ghost use Rattle.row_edits.specs.RowPlans as spec;
ghost use Rattle.row_edits.specs.RowPlans.{CountsFor, CountsMade, IsRowPlan};
ghost use Rattle.row_edits.specs.RowGrounds.{IsRowGround};

use crate::changes::RowGround;
use crate::leaf_items::{leaf_of, old_in};
use crate::leaf_plans::put_in;
use commit_stamps::{push_pointer, slot_of};
use page_image::{Kind, PAGE_COUNT_AT, Page, page_count};
use page_view::LeafItem;
use redo_record::{Plan, PlanKind, Record, Records, TreeNo};
use rm_base::{
    Bytes, Duplicate, Items, MAX_PAGES, PageId, PageList, UndoPtr, WantOfMemory, push_u32, put_u32,
};
use std::alloc::Global;
use undo_versions::{UndoItem, UndoStep, append_plan, push_undo_page};

/// The undo item of the change.
#[tactic(auto, using(crate::proofs::LeafLaws::rows_on, tree_change::proofs::WayLaws::some_pages))]
fn undo_of(alloc: Global, basis: &RowGround) -> Result<UndoItem, WantOfMemory>
    requires way { IsWayTo basis.now.change.item.key basis.now.path }
    requires item { IsLeaf basis.now.change.item }
    requires slots { IsSlots basis.now.slots }
    ensures is { IfOk result (λ undo. undo ≡ spec.undo_of basis.now) }
    ensures undo { IfOk result (λ undo. IsUndo (undone_of undo)) }
{
    let change = &basis.change;
    let _root = change.root.number();
    let before = slot_of(&basis.slots, change.session).last;
    let key = change.item.key.copy(alloc)?;
    let old = old_in(alloc, leaf_of(&basis.path), change.item.key.as_slice())?;
    Ok(UndoItem {
        trx: change.item.trx,
        root: change.root,
        before,
        key,
        old,
    })
}

/// The page behind the one that is made for the undo item, or the next one by the meta page's count.
fn next_page(meta: &Page, made: &Option<PageId>) -> u32
    requires { meta.now.kind ≡ kind.Meta }
    ensures { result ≡ spec.next_page meta.now made.now }
{
    match made {
        None => page_count(meta),
        Some(page) => page.number() + 1,
    }
}

/// Whether there is a page for the root of a table, where one begins.
fn has_root_room(begins: Option<u16>, root: u32) -> bool
    ensures { result ≡ spec.has_root_room begins root }
{
    match begins {
        None => true,
        Some(_) => root < MAX_PAGES,
    }
}

/// Whether there are pages for the undo item, which was planned, and for the root of a table.
#[tactic(auto, using(crate::proofs::PlanLaws::pages_left, crate::proofs::PlanLaws::no_pages))]
fn leaves_pages(basis: &RowGround, planned: Result<UndoStep, TreeNo>) -> bool
    requires meta { IsMeta basis.now.meta }
    requires full { IsErr planned ↔ (NeedsPage basis.now.undo (spec.undo_of basis.now)
        × (MAX_PAGES ≤ counters.page_count basis.now.meta)) }
    requires step { IfOk planned (λ step. step ≡ spec.step_of basis.now) }
    ensures { result ≡ spec.has_pages basis.now }
{
    match planned {
        Err(_) => false,
        Ok(step) => has_root_room(basis.change.begins, next_page(&basis.meta, &step.made)),
    }
}

/// Whether there are the pages that the change needs.
#[tactic(auto, using(crate::proofs::PlanLaws::full_of, crate::proofs::PlanLaws::step_from))]
pub(crate) fn has_pages(alloc: Global, basis: &RowGround) -> Result<bool, WantOfMemory>
    requires way { IsWayTo basis.now.change.item.key basis.now.path }
    requires item { IsLeaf basis.now.change.item }
    requires slots { IsSlots basis.now.slots }
    requires meta { IsMeta basis.now.meta }
    requires undo { basis.now.undo.kind ≡ kind.Undo }
    ensures { IfOk result (λ room. room ≡ spec.has_pages basis.now) }
{
    let undo = undo_of(alloc, basis)?;
    let planned = append_plan(alloc, &basis.meta, &basis.undo, &undo)?;
    Ok(leaves_pages(basis, planned))
}

/// The item, with a pointer to the version before.
fn pointing(alloc: Global, item: &LeafItem, at: UndoPtr) -> Result<LeafItem, WantOfMemory>
    requires { IsLeaf item.now }
    ensures is { IfOk result (λ copy. copy ≡ spec.pointing item.now at) }
    ensures leaf { IfOk result IsLeaf }
{
    Ok(LeafItem {
        key: item.key.copy(alloc)?,
        deleted: item.deleted,
        trx: item.trx,
        older: at,
        value: item.value.copy(alloc)?,
    })
}

/// The item with the number of a root at a place of its value.
#[tactic(auto, using(crate::proofs::PlanLaws::named_leaf))]
fn named(item: LeafItem, place: u16, root: u32) -> LeafItem
    requires leaf { IsLeaf item }
    requires place { place + 4 ≤ length item.value }
    ensures is { result ≡ spec.naming (Some place) root item }
    ensures leaf { IsLeaf result }
{
    let LeafItem {
        key,
        deleted,
        trx,
        older,
        value,
    } = item;
    let mut bytes = value.into_vec();
    put_u32(bytes.as_mut_slice(), usize::from(place), root);
    LeafItem {
        key,
        deleted,
        trx,
        older,
        value: Items::from_vec(bytes),
    }
}

/// The item, with the number of the root where a table begins.
fn naming(item: LeafItem, begins: Option<u16>, root: u32) -> LeafItem
    requires leaf { IsLeaf item }
    requires place { spec.IsPlaceIn begins item.value }
    ensures is { result ≡ spec.naming begins root item }
    ensures leaf { IsLeaf result }
{
    match begins {
        None => item,
        Some(place) => named(item, place, root),
    }
}

/// The root of the table that begins, if one does.
fn begun(begins: Option<u16>, root: u32) -> Option<PageId>
    requires { spec.has_root_room begins root ≡ true }
    ensures { result ≡ spec.begun begins root }
{
    match begins {
        None => None,
        Some(_) => Some(PageId::new(root).unwrap()),
    }
}

fn append(records: &mut Records, more: Records) -> Result<(), WantOfMemory>
    ensures { OnOk result (records.new ≡ records.old ++ more) }
{
    for record in more.into_vec() {
        records.push(record)?;
    }
    Ok(())
}

/// Adds the record that counts the page that was made, if one was.
fn count_made(
    alloc: Global,
    records: &mut Records,
    meta: &Page,
    made: &Option<PageId>,
) -> Result<(), WantOfMemory>
    requires { IsMeta meta.now }
    ensures ok { OnOk result (records.new ≡ records.old ++ spec.counts_made meta.now made.now) }
    ensures counts { CountsMade meta.now made.now }
{
    match made {
        None => Ok(()),
        Some(page) => push_undo_page(alloc, records, meta, page.number() + 1, *page),
    }
}

/// Adds the record by which the meta page counts so many pages.
fn push_count(
    alloc: Global,
    records: &mut Records,
    meta: &Page,
    count: u32,
) -> Result<(), WantOfMemory>
    ensures { OnOk result (records.new ≡ records.old ++ Record.Patch meta.now.page 36 (field 4 count) ∷ []) }
{
    let mut bytes = Bytes::new(alloc);
    push_u32(&mut bytes, count)?;
    records.push(Record::Patch {
        page: meta.page(),
        at: PAGE_COUNT_AT,
        bytes,
    })
}

/// A page keeps the rules of pages. It does nothing when it is run.
fn keeps_rules(page: &Page)
    ensures { IsImage page.now }
{
    let _bytes = page.bytes();
}

/// Adds the record that counts the root of a table, and the page that was made before it, if one was.
fn count_root(
    alloc: Global,
    records: &mut Records,
    meta: &Page,
    root: PageId,
    made: &Option<PageId>,
) -> Result<(), WantOfMemory>
    requires { IsMeta meta.now }
    ensures ok { OnOk result (records.new ≡ records.old ++ spec.counts_for meta.now (Some root) made.now) }
    ensures counts { CountsFor meta.now (Some root) made.now }
{
    keeps_rules(meta);
    let count = root.number() + 1;
    match made {
        None => push_count(alloc, records, meta, count),
        Some(page) => push_undo_page(alloc, records, meta, count, *page),
    }
}

/// Adds the record that counts the pages that are made, if any are.
fn count_pages(
    alloc: Global,
    records: &mut Records,
    meta: &Page,
    root: &Option<PageId>,
    made: &Option<PageId>,
) -> Result<(), WantOfMemory>
    requires { IsMeta meta.now }
    ensures ok { OnOk result (records.new ≡ records.old ++ spec.counts_for meta.now root.now made.now) }
    ensures counts { CountsFor meta.now root.now made.now }
{
    match root {
        None => count_made(alloc, records, meta, made),
        Some(root) => count_root(alloc, records, meta, *root, made),
    }
}

/// Adds the record that makes the root of a table, where one begins.
fn make_root(records: &mut Records, root: &Option<PageId>) -> Result<(), WantOfMemory>
    ensures { OnOk result (records.new ≡ records.old ++ spec.makes_root root.now) }
{
    match root {
        None => Ok(()),
        Some(root) => records.push(Record::Make {
            page: *root,
            kind: Kind::Leaf,
            level: 0,
        }),
    }
}

/// The list, with the page behind it, if there is one.
fn with_page(pages: PageList, page: &Option<PageId>) -> PageList
    requires { length pages ≤ 6 }
    ensures { result ≡ pages ++ spec.pages_of page.now }
{
    let mut pages = pages;
    match page {
        None => pages,
        Some(page) => {
            pages.try_push(*page).unwrap();
            pages
        }
    }
}

fn undo_page_of(basis: &RowGround, made: &Option<PageId>) -> PageId
    ensures { result ≡ spec.undo_page_of basis.now made.now }
{
    match made {
        None => basis.undo.page(),
        Some(page) => *page,
    }
}

/// The meta page, where a page is made.
fn meta_page(basis: &RowGround, root: &Option<PageId>, made: &Option<PageId>) -> Option<PageId>
    ensures { spec.pages_of result ≡ spec.meta_pages basis.now root.now made.now }
{
    if root.is_none() && made.is_none() {
        return None;
    }
    Some(basis.meta.page())
}

/// The pages of the plan, behind those of the leaf.
#[tactic(auto, using(crate::proofs::PlanLaws::one_or_none, crate::proofs::PlanLaws::pages_joined))]
fn with_pages(
    pages: PageList,
    basis: &RowGround,
    root: &Option<PageId>,
    made: &Option<PageId>,
) -> PageList
    requires { length pages ≤ 3 }
    ensures { result ≡ pages ++ spec.other_pages basis.now root.now made.now }
{
    let mut pages = with_page(pages, root);
    pages.try_push(undo_page_of(basis, made)).unwrap();
    pages.try_push(basis.slots.page()).unwrap();
    with_page(pages, &meta_page(basis, root, made))
}

/// The pages that the plan makes.
#[tactic(auto, using(crate::proofs::PlanLaws::one_or_none))]
fn made_list(root: &Option<PageId>, made: &Option<PageId>) -> PageList
    ensures { result ≡ spec.pages_of made.now ++ spec.pages_of root.now }
{
    with_page(with_page(PageList::new(), made), root)
}

/// The records of the leaf, of the root of a table, of the undo item, of the slot and of the meta page in
/// one plan.
pub(crate) fn joined(
    alloc: Global,
    basis: &RowGround,
    root: &Option<PageId>,
    put: Plan,
    step: UndoStep,
) -> Result<Plan, WantOfMemory>
    requires meta { IsMeta basis.now.meta }
    requires slots { IsSlots basis.now.slots }
    requires pages { length put.pages ≤ 3 }
    ensures plan { IfOk result (λ plan. plan ≡ spec.joined_with basis.now root.now put step) }
    ensures pointed { IfOk result (λ _. Points basis.now.slots basis.now.change.session step.at
        (points basis.now.slots basis.now.change.session step.at ∷ [])) }
    ensures counts { IfOk result (λ _. CountsFor basis.now.meta root.now step.made) }
{
    let Plan {
        kind: _,
        pages,
        made: _,
        mut records,
    } = put;
    let UndoStep {
        at,
        records: of_undo,
        made,
    } = step;
    make_root(&mut records, root)?;
    append(&mut records, of_undo)?;
    push_pointer(alloc, &mut records, &basis.slots, basis.change.session, at)?;
    count_pages(alloc, &mut records, &basis.meta, root, &made)?;
    Ok(Plan {
        kind: PlanKind::Change,
        pages: with_pages(pages, basis, root, &made),
        made: made_list(root, &made),
        records,
    })
}

/// The plan of the change.
#[tactic(auto, using(crate::proofs::PlanLaws::is_row_plan, crate::proofs::PlanLaws::has_step, crate::proofs::PlanLaws::root_room, crate::proofs::PlanLaws::placed, crate::proofs::PlanLaws::put_page))]
pub(crate) fn row_plan(alloc: Global, basis: &RowGround) -> Result<Plan, WantOfMemory>
    requires { IsRowGround basis.now }
    ensures { IfOk result (IsRowPlan basis.now) }
{
    let undo = undo_of(alloc, basis)?;
    let step = append_plan(alloc, &basis.meta, &basis.undo, &undo)?.unwrap();
    let next = next_page(&basis.meta, &step.made);
    let root = begun(basis.change.begins, next);
    let pointing = pointing(alloc, &basis.change.item, step.at)?;
    let item = naming(pointing, basis.change.begins, next);
    let put = put_in(alloc, &basis.path, &item)?.unwrap();
    joined(alloc, basis, &root, put, step)
}
