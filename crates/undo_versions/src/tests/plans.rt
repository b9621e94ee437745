//! The bytes of steps, worked by hand, and where pages end.
ghost use Rattle.std.specs.Prelude.{◌≡◌, ◌≤◌, length};
ghost use Rattle.std.specs.List.{AllByRecursion};
ghost use Rattle.redo_record.specs.Spelling.{IsAdmitted};

use super::chains::full_page;
use super::pages::{is_undo, meta_page, undo_item, undo_page, version};
use crate::{UndoItem, UndoStep, append_plan, push_undo_page};
use page_image::{Kind, Page};
use redo_record::{Group, Records, TreeNo, encode};
use rm_base::{Bytes, Lsn, PageId, UndoPtr, WantOfMemory};
use std::alloc::Global;
use std::test::Fail;

/// LSN 2: transaction 1 put key 7 into the tree at page 1030, where it was not. The item joins page
/// 1027 at place 0.
const FIRST: [u8; 44] = [
    0, 0, 0, 0x2c, 0, 0, 0, 0, 0, 0, 0, 2, 0, 1, 3, 0, 0, 4, 3, 0, 0, 0, 0x15, 0, 0, 0, 0, 0, 0, 0,
    1, 0, 0, 4, 6, 0, 0, 0, 0, 0, 0, 0, 1, 7,
];

/// LSN 2: transaction 2 replaced the version of transaction 1, whose older one stands at place 0 of
/// page 1027, and whose value is 9, 9. Its change before stands at place 3 of page 1027. Page 1040 is
/// made for the item.
const SECOND: [u8; 68] = [
    0, 0, 0, 0x44, 0, 0, 0, 0, 0, 0, 0, 2, 0, 2, 1, 0, 0, 4, 0x10, 6, 0, 3, 0, 0, 4, 0x10, 0, 0, 0,
    0x26, 0, 0, 0, 0, 0, 0, 0, 2, 0, 0, 4, 6, 0, 0, 4, 3, 0, 3, 1, 1, 7, 0, 0, 0, 0, 0, 0, 0, 0, 1,
    0, 0, 4, 3, 0, 0, 9, 9,
];

/// LSN 2: 1041 pages are counted, and page 1040 is the undo page in use.
const IN_USE: [u8; 31] = [
    0, 0, 0, 0x1f, 0, 0, 0, 0, 0, 0, 0, 2, 0, 1, 2, 0, 0, 0, 0, 0, 0x24, 0, 8, 0, 0, 4, 0x11, 0, 0,
    4, 0x10,
];

/// The group of the records with LSN 2, as it is spelled.
fn spelled(alloc: Global, records: Records) -> Result<Bytes, WantOfMemory>
    requires some { 1 ≤ length records }
    requires most { length records ≤ 65535 }
    requires each { AllByRecursion IsAdmitted records }
{
    let mut out = Bytes::new(alloc);
    let group = Group {
        lsn: Lsn::new(2),
        records,
    };
    encode(alloc, &group, &mut out)?;
    Ok(out)
}

/// How a plan ended: the place, the page that it makes or 0, and its bytes.
#[derive(Drop)]
struct Ended {
    at: UndoPtr,
    made: u32,
    bytes: Bytes,
}

/// The step that keeps the item, as it is spelled. Nothing where no page is left.
fn appended(
    alloc: Global,
    meta: &Page,
    undo: &Page,
    item: &UndoItem,
) -> Result<Option<Ended>, WantOfMemory> {
    if meta.kind() != Kind::Meta || undo.kind() != Kind::Undo || !is_undo(item) {
        return Ok(None);
    }
    match append_plan(alloc, meta, undo, item)? {
        Err(_) => Ok(None),
        Ok(step) => Ok(Some(spelled_step(alloc, step)?)),
    }
}

fn spelled_step(alloc: Global, step: UndoStep) -> Result<Ended, WantOfMemory>
    requires some { 1 ≤ length step.records }
    requires most { length step.records ≤ 65535 }
    requires each { AllByRecursion IsAdmitted step.records }
{
    let UndoStep { at, records, made } = step;
    Ok(Ended {
        at,
        made: made.map_or(0, |page| page.number()),
        bytes: spelled(alloc, records)?,
    })
}

#[test]
fn an_item_joins_the_undo_page(rt: HostRuntime) -> Result<(), Fail> {
    let none = UndoPtr { page: 0, slot: 0 };
    let meta = meta_page(rt.alloc(), 1040)?.ok_or("no meta page")?;
    let undo = undo_page(rt.alloc(), 1027)?.ok_or("no undo page")?;
    let item = undo_item(rt.alloc(), 1, none, None)?;
    let ended = appended(rt.alloc(), &meta, &undo, &item)?.ok_or("no step")?;
    assert_eq!(rt; (ended.at.page, ended.at.slot), (1027, 0));
    assert_eq!(rt; ended.made, 0);
    assert_eq!(rt; ended.bytes.as_slice(), FIRST.as_slice());
    Ok(())
}

#[test]
fn an_item_that_does_not_fit_makes_a_page(rt: HostRuntime) -> Result<(), Fail> {
    let meta = meta_page(rt.alloc(), 1040)?.ok_or("no meta page")?;
    let undo = full_page(rt.alloc())?.ok_or("no undo page")?;
    let older = UndoPtr {
        page: 1027,
        slot: 0,
    };
    let before = UndoPtr {
        page: 1027,
        slot: 3,
    };
    let old = version(rt.alloc(), 1, older, 2)?;
    let item = undo_item(rt.alloc(), 2, before, Some(old))?;
    let ended = appended(rt.alloc(), &meta, &undo, &item)?.ok_or("no step")?;
    assert_eq!(rt; (ended.at.page, ended.at.slot), (1040, 0));
    assert_eq!(rt; ended.made, 1040);
    assert_eq!(rt; ended.bytes.as_slice(), SECOND.as_slice());
    Ok(())
}

/// Whether the last page can be made, and then none.
fn pages_end(alloc: Global) -> Result<Option<(u32, bool)>, WantOfMemory> {
    let none = UndoPtr { page: 0, slot: 0 };
    let Some(undo) = full_page(alloc)? else {
        return Ok(None);
    };
    let item = undo_item(alloc, 2, none, None)?;
    let Some(last) = meta_page(alloc, 32_767)? else {
        return Ok(None);
    };
    let Some(past) = meta_page(alloc, 32_768)? else {
        return Ok(None);
    };
    let Some(ended) = appended(alloc, &last, &undo, &item)? else {
        return Ok(None);
    };
    Ok(Some((ended.made, is_full(alloc, &past, &undo, &item)?)))
}

/// Whether no page is left for the item.
fn is_full(alloc: Global, meta: &Page, undo: &Page, item: &UndoItem) -> Result<bool, WantOfMemory> {
    if meta.kind() != Kind::Meta || undo.kind() != Kind::Undo || !is_undo(item) {
        return Ok(false);
    }
    match append_plan(alloc, meta, undo, item)? {
        Err(no) => Ok(no == TreeNo::SpaceFull),
        Ok(_) => Ok(false),
    }
}

#[test]
fn undo_pages_end_with_the_last_page(rt: HostRuntime) -> Result<(), Fail> {
    assert_eq!(rt; pages_end(rt.alloc())?, Some((32_767, true)));
    Ok(())
}

/// The record of the undo page in use, as it is spelled.
fn in_use(alloc: Global) -> Result<Option<Bytes>, WantOfMemory> {
    let Some(meta) = meta_page(alloc, 1040)? else {
        return Ok(None);
    };
    if meta.kind() != Kind::Meta {
        return Ok(None);
    }
    let mut records = Records::new(alloc);
    push_undo_page(alloc, &mut records, &meta, 1041, PageId::new(1040).unwrap())?;
    Ok(Some(spelled(alloc, records)?))
}

#[test]
fn the_undo_page_in_use_is_counted(rt: HostRuntime) -> Result<(), Fail> {
    let bytes = in_use(rt.alloc())?.ok_or("no meta page")?;
    assert_eq!(rt; bytes.as_slice(), IN_USE.as_slice());
    Ok(())
}
