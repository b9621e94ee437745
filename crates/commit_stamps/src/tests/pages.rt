//! Pages for tests.
ghost use Rattle.std.specs.Prelude.{IsTrue, IfOk, IfSome};
ghost use Rattle.page_image.specs.Meta.{IsMeta, IsSlots};
ghost use Rattle.commit_stamps.specs.Fields.{slot_of};
ghost use Rattle.commit_stamps.specs.Stamping.{IsStampPage};

use page_image::{Kind, Page};
use redo_record::{Plan, Record, apply};
use rm_base::{Lsn, PageId, SessionId, WantOfMemory};
use std::alloc::Global;

/// The page before it is made, and nothing where there is no such page.
pub fn blank(alloc: Global, number: u32) -> Result<Option<Page>, WantOfMemory> {
    match PageId::new(number) {
        None => Ok(None),
        Some(id) => Ok(Some(Page::blank(alloc, id)?)),
    }
}

/// The empty page of a kind, and nothing where there is no such page.
fn made(alloc: Global, number: u32, kind: Kind) -> Result<Option<Page>, WantOfMemory> {
    let Some(id) = PageId::new(number) else {
        return Ok(None);
    };
    let mut page = Page::blank(alloc, id)?;
    if !page.can_make(kind, 0) {
        return Ok(None);
    }
    page.make(kind, 0, Lsn::new(1));
    Ok(Some(page))
}

/// Whether the page is the meta page.
pub fn is_meta(page: &Page) -> bool
    ensures { IsTrue result → IsMeta page.now }
{
    page.kind() == Kind::Meta && page.page().number() == 0
}

/// Whether the page is the slots page.
pub fn is_slots(page: &Page) -> bool
    ensures { IsTrue result → IsSlots page.now }
{
    page.kind() == Kind::Slots && page.page().number() == 1
}

/// A meta page with the next number and the last stamp.
pub fn meta_page(alloc: Global, next: u64, last: u64) -> Result<Option<Page>, WantOfMemory>
    ensures { IfOk result (λ page. IfSome page IsMeta) }
{
    let Some(mut page) = made(alloc, 0, Kind::Meta)? else {
        return Ok(None);
    };
    patch(&mut page, 44, &next.to_be_bytes());
    patch(&mut page, 52, &last.to_be_bytes());
    Ok(if is_meta(&page) { Some(page) } else { None })
}

fn patch(page: &mut Page, at: u16, bytes: &[u8]) {
    if page.can_patch(at, bytes) && page.lsn().number() <= 1 {
        page.patch(at, bytes, Lsn::new(1));
    }
}

/// A slots page of which each slot is free.
pub fn slots_page(alloc: Global) -> Result<Option<Page>, WantOfMemory>
    ensures { IfOk result (λ page. IfSome page IsSlots) }
{
    let Some(page) = made(alloc, 1, Kind::Slots)? else {
        return Ok(None);
    };
    Ok(if is_slots(&page) { Some(page) } else { None })
}

/// A slots page on which one slot has a transaction.
pub fn slots_with(alloc: Global, s: u16, t: u64) -> Result<Option<Page>, WantOfMemory>
    ensures { IfOk result (λ page. IfSome page IsSlots) }
{
    let Some(mut page) = slots_page(alloc)? else {
        return Ok(None);
    };
    if s < 64 {
        patch(&mut page, 32 + 16 * s, &t.to_be_bytes());
    }
    Ok(if is_slots(&page) { Some(page) } else { None })
}

/// Whether the page is the stamp page of the session's transaction.
pub fn is_page_of(stamps: &Page, slots: &Page, s: SessionId) -> bool
    requires { IsSlots slots.now }
    ensures { IsTrue result → IsStampPage stamps.now (slot_of slots.now s).trx }
{
    let t = crate::slot_of(slots, s).trx;
    t.number() >= 1
        && stamps.kind() == Kind::Stamps
        && u64::from(stamps.page().number()) == crate::stamp_page(t)
}

/// A page of stamps, each of which is 0.
pub fn stamp_page(alloc: Global, number: u32) -> Result<Option<Page>, WantOfMemory> {
    made(alloc, number, Kind::Stamps)
}

/// Does those records of a plan that are for the page.
pub fn run(page: &mut Page, plan: &Plan, lsn: u64) {
    for record in plan.records.as_slice() {
        step(page, record, lsn);
    }
}

fn step(page: &mut Page, record: &Record, lsn: u64) {
    if record.page() != page.page() || lsn < 1 || lsn < page.lsn().number() {
        return;
    }
    let _ = apply(page, record, Lsn::new(lsn));
}
