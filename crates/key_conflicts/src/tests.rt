//! Keys that are tested over pages that are handed in one by one.
ghost use Rattle.std.specs.Prelude.{IfSome};
ghost use Rattle.range_reader.specs.Finding.{Asked};
ghost use Rattle.key_conflicts.specs.Machine.{work_of};

use crate::*;
use page_image::{Kind, Page};
use range_reader::Snapshot;
use rm_base::{Bytes, Items, Lsn, PageId, Stamp, TrxId, WantOfMemory};
use std::alloc::Global;
use std::test::Fail;

/// A version of a key of one byte, by a transaction.
const fn version(key: u8, trx: u8, deleted: u8) -> [u8; 17] {
    [1, key, deleted, 0, 0, 0, 0, 0, 0, 0, trx, 0, 0, 0, 0, 0, 0]
}

/// Transaction 1 was committed first, 2 is open, and 3 was committed as the seventh.
const STAMPS: &[u8] = b"\0\0\0\0\0\0\0\x01\0\0\0\0\0\0\0\0\0\0\0\0\0\0\0\x07";

/// The page of that number and kind with the items. None where they do not fit.
fn page_with(
    alloc: Global,
    number: u32,
    kind: Kind,
    items: &[&[u8]],
) -> Result<Option<Page>, WantOfMemory> {
    let Some(id) = PageId::new(number) else {
        return Ok(None);
    };
    let mut page = Page::blank(alloc, id)?;
    let level = u8::from(kind == Kind::Inner);
    if !page.can_make(kind, level) {
        return Ok(None);
    }
    page.make(kind, level, Lsn::new(1));
    for item in items {
        let end = page.slots();
        if page.lsn().number() > 1 || !page.can_insert(end, item) {
            return Ok(None);
        }
        page.insert_item(end, item, Lsn::new(1));
    }
    Ok(Some(page))
}

/// The first page of stamps.
fn stamps(alloc: Global) -> Result<Option<Page>, WantOfMemory> {
    let Some(mut page) = page_with(alloc, 2, Kind::Stamps, &[])? else {
        return Ok(None);
    };
    if page.lsn().number() > 1 || !page.can_patch(32, STAMPS) {
        return Ok(None);
    }
    page.patch(32, STAMPS, Lsn::new(1));
    Ok(Some(page))
}

/// Adds the page, if it is one.
fn add(pages: &mut Items<Page>, page: Option<Page>) -> Result<(), WantOfMemory> {
    match page {
        None => Ok(()),
        Some(page) => pages.push(page),
    }
}

/// A root over two leaves: key 1 by transaction 1 and key 2 by 9 on page 10; key 5 by 2, 6 by 3 and 7,
/// which is deleted, by 1 on page 11; and the page of stamps.
fn tree(alloc: Global) -> Result<Items<Page>, WantOfMemory> {
    let mut pages = Items::new(alloc);
    add(
        &mut pages,
        page_with(
            alloc,
            30,
            Kind::Inner,
            &[b"\0\0\0\0\x0a", b"\x01\x05\0\0\0\x0b"],
        )?,
    )?;
    add(
        &mut pages,
        page_with(
            alloc,
            10,
            Kind::Leaf,
            &[&version(1, 1, 0), &version(2, 9, 0)],
        )?,
    )?;
    add(
        &mut pages,
        page_with(
            alloc,
            11,
            Kind::Leaf,
            &[&version(5, 2, 0), &version(6, 3, 0), &version(7, 1, 1)],
        )?,
    )?;
    add(&mut pages, stamps(alloc)?)?;
    Ok(pages)
}

/// The page that is wanted, if it is one of these.
fn page_for<'a>(test: &AskingTest, pages: &'a Items<Page>) -> Option<&'a Page>
    ensures { IfSome result (λ page. Asked (work_of test.now) page.now) }
{
    for page in pages.as_slice() {
        if test.takes(page) {
            return Some(page);
        }
    }
    None
}

/// Gives the page that is wanted, and notes its number.
fn step(
    alloc: Global,
    test: &mut AskingTest,
    pages: &Items<Page>,
    trail: &mut Items<u32>,
) -> Result<(), WantOfMemory> {
    match page_for(test, pages) {
        None => Ok(()),
        Some(page) => {
            trail.push(page.page().number())?;
            test.give(alloc, page)
        }
    }
}

/// Three such steps.
fn steps(
    alloc: Global,
    test: &mut AskingTest,
    pages: &Items<Page>,
    trail: &mut Items<u32>,
) -> Result<(), WantOfMemory> {
    step(alloc, test, pages, trail)?;
    step(alloc, test, pages, trail)?;
    step(alloc, test, pages, trail)
}

/// A test of keys of one byte each, with the commits up to the second and what transaction 9 did.
fn test_of(alloc: Global, bytes: &[u8]) -> Result<AskingTest, WantOfMemory> {
    let snapshot = Snapshot {
        stamp: Stamp::new(2),
        own: Some(TrxId::new(9)),
    };
    let mut keys = Items::new(alloc);
    for byte in bytes {
        let mut key = Bytes::new(alloc);
        key.push(*byte)?;
        keys.push(key)?;
    }
    let root = PageId::new(30).unwrap();
    Ok(AskingTest::new(snapshot, root, keys))
}

/// The byte of the key that is in the way, and that of the one that is there.
fn told_by(test: AskingTest) -> Option<(Option<u8>, Option<u8>)> {
    let tested = test.into_answer()?;
    let clash = tested.clash.and_then(|key| key.as_slice().first().copied());
    let found = tested.found.and_then(|key| key.as_slice().first().copied());
    Some((clash, found))
}

#[test]
fn seen_and_own_versions_are_not_in_the_way(rt: HostRuntime) -> Result<(), Fail> {
    let alloc = rt.alloc();
    let pages = tree(alloc)?;
    let mut trail = Items::new(alloc);
    let mut test = test_of(alloc, &[7, 2, 1])?;
    steps(alloc, &mut test, &pages, &mut trail)?;
    assert_eq!(rt; trail.as_slice(), [30, 11, 2].as_slice());
    steps(alloc, &mut test, &pages, &mut trail)?;
    steps(alloc, &mut test, &pages, &mut trail)?;
    assert_eq!(rt; trail.len(), 8);
    assert_eq!(rt; told_by(test), Some((None, Some(2))));
    judged_law();
    order_law();
    Ok(())
}

#[test]
fn the_least_of_the_keys_in_the_way_is_told(rt: HostRuntime) -> Result<(), Fail> {
    let alloc = rt.alloc();
    let pages = tree(alloc)?;
    let mut trail = Items::new(alloc);
    let mut test = test_of(alloc, &[3, 6, 5])?;
    steps(alloc, &mut test, &pages, &mut trail)?;
    steps(alloc, &mut test, &pages, &mut trail)?;
    assert_eq!(rt; test.next().is_none(), false);
    steps(alloc, &mut test, &pages, &mut trail)?;
    assert_eq!(rt; trail.as_slice(), [30, 10, 30, 11, 2, 30, 11, 2].as_slice());
    assert_eq!(rt; told_by(test), Some((Some(5), Some(6))));
    Ok(())
}
