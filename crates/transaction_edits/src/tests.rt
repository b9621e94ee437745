//! A begin and a freeing over the pages that a log begins with.
ghost use Rattle.std.specs.Prelude.{IsTrue, IfOk, IfSome};
ghost use Rattle.page_image.specs.Meta.{IsMeta, IsSlots};

use crate::{Act, Fetch, TransactionEdit};
use page_image::{Kind, Page};
use redo_record::{Record, apply, opening_records};
use rm_base::{Lsn, META_PAGE_ID, PageId, SLOTS_PAGE_ID, SessionId, WantOfMemory};
use std::alloc::Global;
use std::test::Fail;

fn step(page: &mut Page, record: &Record) {
    if record.page() == page.page() && page.lsn().number() <= 1 {
        let _ = apply(page, record, Lsn::new(1));
    }
}

/// The page as the opening leaves it. None where there is no such page.
fn opened(alloc: Global, number: u32) -> Result<Option<Page>, WantOfMemory> {
    let Some(id) = PageId::new(number) else {
        return Ok(None);
    };
    let mut page = Page::blank(alloc, id)?;
    let records = opening_records(alloc)?;
    for record in records.as_slice() {
        step(&mut page, record);
    }
    Ok(Some(page))
}

fn is_meta(page: &Page) -> bool
    ensures { IsTrue result → IsMeta page.now }
{
    page.kind() == Kind::Meta && page.page().number() == META_PAGE_ID
}

fn is_slots(page: &Page) -> bool
    ensures { IsTrue result → IsSlots page.now }
{
    page.kind() == Kind::Slots && page.page().number() == SLOTS_PAGE_ID
}

fn meta_page(alloc: Global) -> Result<Option<Page>, WantOfMemory>
    ensures { IfOk result (λ page. IfSome page IsMeta) }
{
    match opened(alloc, META_PAGE_ID)? {
        Some(page) if is_meta(&page) => Ok(Some(page)),
        _ => Ok(None),
    }
}

fn slots_page(alloc: Global) -> Result<Option<Page>, WantOfMemory>
    ensures { IfOk result (λ page. IfSome page IsSlots) }
{
    match opened(alloc, SLOTS_PAGE_ID)? {
        Some(page) if is_slots(&page) => Ok(Some(page)),
        _ => Ok(None),
    }
}

/// What is to be done next: 1 for the meta page, 2 for the slots page, and 10 and the number of records for
/// a plan.
fn next_of(alloc: Global, edit: &TransactionEdit) -> Result<usize, WantOfMemory> {
    match edit.next(alloc)? {
        Some(Act::Fetch(Fetch::Meta)) => Ok(1),
        Some(Act::Fetch(Fetch::Slots)) => Ok(2),
        Some(Act::Run(plan)) => Ok(10 + plan.records.len()),
        Some(Act::Fetch(Fetch::Stamps(_))) | None => Ok(0),
    }
}

#[test]
fn the_first_transaction_gets_its_number_and_a_page_of_stamps(rt: HostRuntime) -> Result<(), Fail> {
    let alloc = rt.alloc();
    let edit = TransactionEdit::begin(SessionId::default());
    assert_eq!(rt; next_of(alloc, &edit)?, 1);
    let meta = meta_page(alloc)?.expect(&rt, "the opening makes a meta page");
    let edit = edit.give(meta);
    assert_eq!(rt; next_of(alloc, &edit)?, 2);
    let slots = slots_page(alloc)?.expect(&rt, "the opening makes a slots page");
    let edit = edit.give(slots);
    assert_eq!(rt; next_of(alloc, &edit)?, 13);
    assert_eq!(rt; edit.told(), None);
    Ok(())
}

#[test]
fn a_slot_is_freed_and_a_commit_begins_with_the_meta_page(rt: HostRuntime) -> Result<(), Fail> {
    let alloc = rt.alloc();
    let commit = TransactionEdit::commit(SessionId::default());
    assert_eq!(rt; next_of(alloc, &commit)?, 1);
    let edit = TransactionEdit::free(SessionId::default());
    assert_eq!(rt; next_of(alloc, &edit)?, 2);
    let slots = slots_page(alloc)?.expect(&rt, "the opening makes a slots page");
    let edit = edit.give(slots);
    assert_eq!(rt; next_of(alloc, &edit)?, 11);
    Ok(())
}
