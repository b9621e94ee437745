//! The plan that undoes a change.
ghost use Rattle.std.specs.Prelude.{◌≡◌, ◌≤◌, ◌↔◌, ◌∷◌, [], true, Some, None, length, slice_get, IsOk, IsSome, IfOk, IfSome};
ghost use Rattle.page_image.specs.Meta.{IsSlots};
ghost use Rattle.page_view.specs.Leaf.{IsLeaf, leaf_bytes};
ghost use Rattle.page_view.specs.Undo.{IsUndo};
ghost use Rattle.commit_stamps.specs.Effects.{Points};
ghost use Rattle.commit_stamps.specs.Plans.{points};
ghost use Rattle.undo_versions.specs.Reading as reading;
ghost use Rattle.undo_versions.specs.Reading.{undone_of};
ghost use Rattle.tree_change.specs.Changes.{remove_plan};
ghost use Rattle.tree_change.specs.Effects.{Carries, with_item, without_item};
ghost use Rattle.tree_change.specs.Places.{leaf_on};
ghost use Rattle.tree_change.specs.Way.{IsWayTo};
ghost use Rattle.row_edits.specs.BackPlans as spec;
ghost use Rattle.row_edits.specs.BackPlans.{IsBackPlan};
ghost use Rattle.row_edits.specs.BackGrounds.{IsBackGround};

use crate::changes::BackGround;
use crate::leaf_items::{find, leaf_of};
use crate::leaf_plans::put_in;
use commit_stamps::push_pointer;
use page_image::Page;
use page_view::LeafItem;
use redo_record::{Path, Plan, PlanKind};
use rm_base::{Bytes, Duplicate, TrxId, UndoPtr, WantOfMemory};
use std::alloc::Global;
use tree_change::plan_take;
use undo_versions::{UndoItem, older};

/// The undo item at the place, whose bytes these are.
#[tactic(auto, using(crate::proofs::BackLaws::undo_found))]
fn read_at(
    alloc: Global,
    page: &Page,
    at: UndoPtr,
    bytes: &[u8],
) -> Result<Option<UndoItem>, WantOfMemory>
    requires { slice_get page.now.items at.slot ≡ Some bytes.now }
    ensures is { IfOk result (λ found. found ≡ reading.older page.now at) }
    ensures undo { IfOk result (λ found. IfSome found (λ undo. IsUndo (undone_of undo))) }
{
    let _length = bytes.len();
    older(alloc, page, at)
}

/// The undo item at the place.
#[tactic(auto, using(crate::proofs::BackLaws::nothing_there))]
pub(crate) fn undo_at(
    alloc: Global,
    page: &Page,
    at: UndoPtr,
) -> Result<Option<UndoItem>, WantOfMemory>
    ensures is { IfOk result (λ found. found ≡ reading.older page.now at) }
    ensures undo { IfOk result (λ found. IfSome found (λ undo. IsUndo (undone_of undo))) }
{
    match page.item(usize::from(at.slot)) {
        None => Ok(None),
        Some(bytes) => read_at(alloc, page, at, bytes),
    }
}

/// An item with the key, and nothing else.
fn keyed(alloc: Global, key: &Bytes) -> Result<LeafItem, WantOfMemory>
    ensures { IfOk result (λ item. item.key ≡ key.now) }
{
    Ok(LeafItem {
        key: key.copy(alloc)?,
        deleted: false,
        trx: TrxId::new(0),
        older: UndoPtr { page: 0, slot: 0 },
        value: Bytes::new(alloc),
    })
}

/// The plan that takes the item with the key out of its leaf, where it is there.
#[tactic(auto, using(tree_change::proofs::WayLaws::some_pages))]
fn take_out(alloc: Global, path: &Path, key: &Bytes) -> Result<Option<Plan>, WantOfMemory>
    requires { IsWayTo key.now path.now }
    ensures there { IfOk result (λ found. IsSome found ↔ spec.HasItem key.now path.now) }
    ensures plan { IfOk result (λ found. IfSome found (λ plan. plan ≡ remove_plan (leaf_on path.now) key.now)) }
    ensures carries { IfOk result (λ found. IfSome found (λ plan. Carries key.now path.now plan (without_item key.now))) }
{
    let item = keyed(alloc, key)?;
    plan_take(alloc, path, leaf_of(path), &item)
}

/// Whether the leaf has an item with the key.
pub(crate) fn is_there(path: &Path, key: &Bytes) -> bool
    requires { IsWayTo key.now path.now }
    ensures { result ≡ spec.is_there path.now key.now }
{
    find(leaf_of(path), key.as_slice()).is_ok()
}

/// Whether the leaf has room for the item.
#[tactic(auto, using(crate::proofs::BackLaws::fits_if))]
pub(crate) fn fits(alloc: Global, path: &Path, item: &LeafItem) -> Result<bool, WantOfMemory>
    requires way { IsWayTo item.now.key path.now }
    requires item { IsLeaf item.now }
    ensures { IfOk result (λ room. room ≡ spec.fits path.now item.now) }
{
    let planned = put_in(alloc, path, item)?;
    Ok(planned.is_ok())
}

/// The leaf's part where an old item is put back.
fn put_old(alloc: Global, basis: &BackGround, old: &LeafItem) -> Result<Plan, WantOfMemory>
    requires basis { IsBackGround basis.now }
    requires old { basis.now.undo.old ≡ Some old.now }
    ensures plan { IfOk result (λ plan. plan ≡ spec.leaf_plan basis.now) }
    ensures carries { IfOk result (λ plan. Carries basis.now.undo.key basis.now.path plan (spec.put_back basis.now.undo)) }
{
    Ok(put_in(alloc, &basis.path, old)?.unwrap())
}

/// The leaf's part where the item is taken away.
fn take_new(alloc: Global, basis: &BackGround) -> Result<Plan, WantOfMemory>
    requires basis { IsBackGround basis.now }
    requires old { basis.now.undo.old ≡ None }
    ensures plan { IfOk result (λ plan. plan ≡ spec.leaf_plan basis.now) }
    ensures carries { IfOk result (λ plan. Carries basis.now.undo.key basis.now.path plan (spec.put_back basis.now.undo)) }
{
    Ok(take_out(alloc, &basis.path, &basis.undo.key)?.unwrap())
}

/// The leaf's part: the old item is put back, or the new one is taken away.
fn leaf_plan(alloc: Global, basis: &BackGround) -> Result<Plan, WantOfMemory>
    requires { IsBackGround basis.now }
    ensures plan { IfOk result (λ plan. plan ≡ spec.leaf_plan basis.now) }
    ensures carries { IfOk result (λ plan. Carries basis.now.undo.key basis.now.path plan (spec.put_back basis.now.undo)) }
{
    match &basis.undo.old {
        None => take_new(alloc, basis),
        Some(old) => put_old(alloc, basis, old),
    }
}

/// The records of the leaf and of the slot in one plan.
fn joined_back(alloc: Global, basis: &BackGround, plan: Plan) -> Result<Plan, WantOfMemory>
    requires slots { IsSlots basis.now.slots }
    requires pages { length plan.pages ≤ 5 }
    ensures plan { IfOk result (λ whole. whole ≡ spec.joined_back basis.now plan) }
    ensures pointed { IfOk result (λ _. Points basis.now.slots basis.now.session basis.now.undo.before
        (points basis.now.slots basis.now.session basis.now.undo.before ∷ [])) }
{
    let Plan {
        kind: _,
        mut pages,
        made,
        mut records,
    } = plan;
    push_pointer(
        alloc,
        &mut records,
        &basis.slots,
        basis.session,
        basis.undo.before,
    )?;
    pages.try_push(basis.slots.page()).unwrap();
    Ok(Plan {
        kind: PlanKind::Undo,
        pages,
        made,
        records,
    })
}

/// The plan that undoes the change.
#[tactic(auto, using(crate::proofs::BackLaws::is_back_plan, crate::proofs::BackLaws::few_pages))]
pub(crate) fn back_plan(alloc: Global, basis: &BackGround) -> Result<Plan, WantOfMemory>
    requires { IsBackGround basis.now }
    ensures { IfOk result (IsBackPlan basis.now) }
{
    let plan = leaf_plan(alloc, basis)?;
    joined_back(alloc, basis, plan)
}
