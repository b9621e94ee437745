//! The first steps of both machines, and how the parts of their plans are joined.
ghost use Rattle.std.specs.Prelude.{◌≡◌, ◌≤◌, length, IsTrue, IfOk, IfSome};
ghost use Rattle.page_image.specs.Meta.{IsMeta, IsSlots};
ghost use Rattle.page_view.specs.Leaf.{IsLeaf};
ghost use Rattle.row_edits.specs.RowPlans.{IsChange};

use crate::row_plans::joined;
use crate::*;
use page_image::{Kind, Page};
use page_view::LeafItem;
use redo_record::{Plan, PlanKind, Record, Records};
use rm_base::{Bytes, Items, Lsn, PageId, PageList, SessionId, TrxId, UndoPtr, WantOfMemory};
use std::alloc::Global;
use std::test::Fail;
use undo_versions::UndoStep;

/// The item of a key of one byte, by a transaction.
fn item(alloc: Global, key: u8, trx: u64) -> Result<LeafItem, WantOfMemory>
    ensures { IfOk result IsLeaf }
{
    let mut bytes = Bytes::new(alloc);
    bytes.push(key)?;
    Ok(LeafItem {
        key: bytes,
        deleted: false,
        trx: TrxId::new(trx),
        older: UndoPtr { page: 0, slot: 0 },
        value: Bytes::new(alloc),
    })
}

/// The page of that number and kind. None where there is no such page.
fn page_of(alloc: Global, number: u32, kind: Kind) -> Result<Option<Page>, WantOfMemory> {
    let Some(id) = PageId::new(number) else {
        return Ok(None);
    };
    let mut page = Page::blank(alloc, id)?;
    if !page.can_make(kind, 0) {
        return Ok(None);
    }
    page.make(kind, 0, Lsn::new(1));
    Ok(Some(page))
}

/// A page number that there is.
fn id(number: u32) -> PageId {
    PageId::new(number).unwrap_or_default()
}

/// Whether this is what is to be done.
fn is_fetch(act: &Act, fetch: Fetch) -> bool {
    match act {
        Act::Fetch(other) => *other == fetch,
        Act::Run(_) => false,
    }
}

fn asks(act: &Option<Act>, fetch: Fetch) -> bool {
    match act {
        None => false,
        Some(act) => is_fetch(act, fetch),
    }
}

fn change(alloc: Global) -> Result<RowChange, WantOfMemory>
    ensures { IfOk result IsChange }
{
    Ok(RowChange {
        session: SessionId::new(1).unwrap_or_default(),
        root: id(30),
        item: item(alloc, 1, 3)?,
        begins: None,
    })
}

fn change_asks(alloc: Global, fetch: Fetch) -> Result<bool, WantOfMemory> {
    let edit = RowEdit::new(alloc, change(alloc)?);
    let act = edit.next(alloc)?;
    Ok(asks(&act, fetch))
}

fn undo_asks(alloc: Global, at: UndoPtr, fetch: Fetch) -> Result<bool, WantOfMemory> {
    let edit = BackEdit::new(SessionId::new(1).unwrap_or_default(), at);
    let act = edit.next(alloc)?;
    Ok(asks(&act, fetch))
}

#[test]
fn a_change_begins_at_its_root(rt: HostRuntime) -> Result<(), Fail> {
    assert!(rt; change_asks(rt.alloc(), Fetch::Root(id(30)))?);
    Ok(())
}

#[test]
fn an_undo_begins_with_its_item(rt: HostRuntime) -> Result<(), Fail> {
    let at = UndoPtr { page: 20, slot: 0 };
    assert!(rt; undo_asks(rt.alloc(), at, Fetch::Undo(id(20)))?);
    Ok(())
}

/// A list of one page.
fn one_page(page: PageId) -> PageList
    ensures { length result ≤ 1 }
{
    let mut pages = PageList::new();
    pages.try_push(page).unwrap();
    pages
}

/// A plan that takes the first item out of page 10.
fn removal(alloc: Global) -> Result<Plan, WantOfMemory>
    ensures { IfOk result (λ plan. length plan.pages ≤ 1) }
{
    let mut records = Records::new(alloc);
    records.push(Record::RemoveSlot {
        page: id(10),
        index: 0,
    })?;
    Ok(Plan {
        kind: PlanKind::Change,
        pages: one_page(id(10)),
        made: PageList::new(),
        records,
    })
}

fn is_ground(basis: &RowGround) -> bool
    ensures meta { IsTrue result → IsMeta basis.now.meta }
    ensures slots { IsTrue result → IsSlots basis.now.slots }
{
    basis.meta.kind() == Kind::Meta
        && basis.meta.page().number() == 0
        && basis.slots.kind() == Kind::Slots
        && basis.slots.page().number() == 1
}

fn basis(alloc: Global) -> Result<Option<RowGround>, WantOfMemory>
    ensures meta { IfOk result (λ basis. IfSome basis (λ g. IsMeta g.meta)) }
    ensures slots { IfOk result (λ basis. IfSome basis (λ g. IsSlots g.slots)) }
{
    let Some(meta) = page_of(alloc, 0, Kind::Meta)? else {
        return Ok(None);
    };
    let Some(undo) = page_of(alloc, 20, Kind::Undo)? else {
        return Ok(None);
    };
    let Some(slots) = page_of(alloc, 1, Kind::Slots)? else {
        return Ok(None);
    };
    let basis = RowGround {
        change: change(alloc)?,
        path: Items::new(alloc),
        meta,
        undo,
        slots,
    };
    if is_ground(&basis) {
        Ok(Some(basis))
    } else {
        Ok(None)
    }
}

/// A step with one record, and perhaps a page that it makes.
fn step(alloc: Global, made: Option<PageId>) -> Result<UndoStep, WantOfMemory> {
    let mut records = Records::new(alloc);
    records.push(Record::InsertSlot {
        page: id(20),
        index: 0,
        bytes: Bytes::new(alloc),
    })?;
    Ok(UndoStep {
        at: UndoPtr { page: 20, slot: 0 },
        records,
        made,
    })
}

#[test]
fn a_plan_has_leaf_and_undo_page_and_slots(rt: HostRuntime) -> Result<(), Fail> {
    let alloc = rt.alloc();
    let basis = basis(alloc)?.ok_or("pages")?;
    let plan = joined(alloc, &basis, &None, removal(alloc)?, step(alloc, None)?)?;
    assert!(rt; plan.pages.as_slice() == [id(10), id(20), id(1)].as_slice());
    assert!(rt; plan.made.is_empty());
    assert_eq!(rt; plan.records.len(), 3);
    Ok(())
}

#[test]
fn a_page_that_is_made_is_counted(rt: HostRuntime) -> Result<(), Fail> {
    let alloc = rt.alloc();
    let basis = basis(alloc)?.ok_or("pages")?;
    let plan = joined(
        alloc,
        &basis,
        &None,
        removal(alloc)?,
        step(alloc, Some(id(21)))?,
    )?;
    assert!(rt; plan.pages.as_slice() == [id(10), id(21), id(1), id(0)].as_slice());
    assert!(rt; plan.made.as_slice() == [id(21)].as_slice());
    assert_eq!(rt; plan.records.len(), 4);
    Ok(())
}
