//! Reads over pages that are handed in one by one.
ghost use Rattle.std.specs.Prelude.{◌≡◌, true, IfOk, IfSome, OnOk};
ghost use Rattle.range_reader.specs.Finding.{Asked};
ghost use Rattle.range_reader.specs.Machine.{finding_of, is_settled};

use crate::*;
use page_image::{Kind, Page};
use rm_base::{Bytes, Items, KeyRange, Lsn, PageId, Stamp, TrxId, WantOfMemory};
use std::alloc::Global;
use std::test::Fail;

/// A version of a key of one byte, by a transaction, with the older one in an undo page's first
/// place.
const fn version(key: u8, trx: u8, older: u8, deleted: u8) -> [u8; 17] {
    [
        1, key, deleted, 0, 0, 0, 0, 0, 0, 0, trx, 0, 0, 0, older, 0, 0,
    ]
}

/// The version of key 1 that transaction 3 replaced, in the tree with root 30.
const REPLACED: &[u8] =
    b"\0\0\0\0\0\0\0\x03\0\0\0\x1e\0\0\0\0\0\0\x01\x01\x01\0\0\0\0\0\0\0\0\x01\0\0\0\0\0\0";

/// Transaction 1 was committed first, 2 next and 3 as the seventh.
const STAMPS: &[u8] = b"\0\0\0\0\0\0\0\x01\0\0\0\0\0\0\0\x02\0\0\0\0\0\0\0\x07";

/// The page of that number, kind and next page, with the items. None where they do not fit.
fn page_with(
    alloc: Global,
    number: u32,
    kind: Kind,
    next: u32,
    items: &[&[u8]],
) -> Result<Option<Page>, WantOfMemory> {
    let Some(id) = PageId::new(number) else {
        return Ok(None);
    };
    let mut page = Page::blank(alloc, id)?;
    let level = u8::from(kind == Kind::Inner);
    if !page.can_make(kind, level) {
        return Ok(None);
    }
    page.make(kind, level, Lsn::new(1));
    for item in items {
        let end = page.slots();
        if page.lsn().number() > 1 || !page.can_insert(end, item) {
            return Ok(None);
        }
        page.insert_item(end, item, Lsn::new(1));
    }
    if next == 0 {
        return Ok(Some(page));
    }
    if page.lsn().number() > 1 || !page.can_link(next) {
        return Ok(None);
    }
    page.link(next, Lsn::new(1));
    Ok(Some(page))
}

/// The first page of stamps.
fn stamps(alloc: Global) -> Result<Option<Page>, WantOfMemory> {
    let Some(mut page) = page_with(alloc, 2, Kind::Stamps, 0, &[])? else {
        return Ok(None);
    };
    if page.lsn().number() > 1 || !page.can_patch(32, STAMPS) {
        return Ok(None);
    }
    page.patch(32, STAMPS, Lsn::new(1));
    Ok(Some(page))
}

/// Adds the page, if it is one.
fn add(pages: &mut Items<Page>, page: Option<Page>) -> Result<(), WantOfMemory> {
    match page {
        None => Ok(()),
        Some(page) => pages.push(page),
    }
}

/// A root over two leaves: keys 1 and 2 on page 10, 5 and 6 on page 11; stamps and an undo page;
/// and a tree of one leaf, page 31.
fn two_trees(alloc: Global) -> Result<Items<Page>, WantOfMemory> {
    let mut pages = Items::new(alloc);
    add(
        &mut pages,
        page_with(
            alloc,
            30,
            Kind::Inner,
            0,
            &[b"\0\0\0\0\x0a", b"\x01\x05\0\0\0\x0b"],
        )?,
    )?;
    add(
        &mut pages,
        page_with(
            alloc,
            10,
            Kind::Leaf,
            11,
            &[&version(1, 3, 20, 0), &version(2, 9, 0, 0)],
        )?,
    )?;
    add(
        &mut pages,
        page_with(
            alloc,
            11,
            Kind::Leaf,
            0,
            &[&version(5, 1, 0, 1), &version(6, 2, 0, 0)],
        )?,
    )?;
    add(
        &mut pages,
        page_with(alloc, 20, Kind::Undo, 0, &[REPLACED])?,
    )?;
    add(
        &mut pages,
        page_with(alloc, 31, Kind::Leaf, 0, &[&version(8, 2, 0, 0)])?,
    )?;
    add(&mut pages, stamps(alloc)?)?;
    Ok(pages)
}

/// The first leaf after a split: key 2 went to the new page 12.
fn after_split(alloc: Global) -> Result<Items<Page>, WantOfMemory> {
    let mut pages = Items::new(alloc);
    add(
        &mut pages,
        page_with(alloc, 10, Kind::Leaf, 12, &[&version(1, 1, 0, 0)])?,
    )?;
    add(
        &mut pages,
        page_with(alloc, 12, Kind::Leaf, 0, &[&version(2, 2, 0, 0)])?,
    )?;
    add(&mut pages, stamps(alloc)?)?;
    Ok(pages)
}

/// The page that is wanted, if it is one of these.
fn page_for<'a>(reader: &RangeReader, pages: &'a Items<Page>) -> Option<&'a Page>
    requires { is_settled reader.now ≡ true }
    ensures { IfSome result (λ page. Asked (finding_of reader.now) page.now) }
{
    for page in pages.as_slice() {
        if reader.takes(page) {
            return Some(page);
        }
    }
    None
}

/// Gives the page that is wanted, and notes its number.
fn step(
    alloc: Global,
    reader: &mut RangeReader,
    pages: &Items<Page>,
    trail: &mut Items<u32>,
) -> Result<(), WantOfMemory>
    requires { is_settled reader.old ≡ true }
    ensures { OnOk result (is_settled reader.new ≡ true) }
{
    match page_for(reader, pages) {
        None => Ok(()),
        Some(page) => {
            trail.push(page.page().number())?;
            reader.give(alloc, page)
        }
    }
}

/// Five such steps.
fn steps(
    alloc: Global,
    reader: &mut RangeReader,
    pages: &Items<Page>,
    trail: &mut Items<u32>,
) -> Result<(), WantOfMemory>
    requires { is_settled reader.old ≡ true }
    ensures { OnOk result (is_settled reader.new ≡ true) }
{
    step(alloc, reader, pages, trail)?;
    step(alloc, reader, pages, trail)?;
    step(alloc, reader, pages, trail)?;
    step(alloc, reader, pages, trail)?;
    step(alloc, reader, pages, trail)
}

/// A reader of a whole tree, with the commits up to the second and what transaction 9 did.
fn reader_of(alloc: Global, root: u32) -> Result<RangeReader, WantOfMemory>
    ensures { IfOk result (λ reader. is_settled reader ≡ true) }
{
    let range = KeyRange {
        low: None,
        high: None,
    };
    let snapshot = Snapshot {
        stamp: Stamp::new(2),
        own: Some(TrxId::new(9)),
    };
    let root = PageId::new(root).unwrap_or(PageId::new(30).unwrap());
    RangeReader::new(alloc, snapshot, root, &range)
}

/// The keys and transactions of the versions that were found.
fn found_by(alloc: Global, reader: RangeReader) -> Result<Items<(u8, u64)>, WantOfMemory>
    requires { is_settled reader ≡ true }
{
    let mut found = Items::new(alloc);
    if let Some(items) = reader.into_items() {
        for item in items.as_slice() {
            let key = item.key.as_slice().first().copied();
            found.push((key.unwrap_or(0), item.trx.number()))?;
        }
    }
    Ok(found)
}

#[test]
fn a_read_gives_the_versions_that_a_snapshot_sees(rt: HostRuntime) -> Result<(), Fail> {
    let alloc = rt.alloc();
    let pages = two_trees(alloc)?;
    let mut trail = Items::new(alloc);
    let mut reader = reader_of(alloc, 30)?;
    steps(alloc, &mut reader, &pages, &mut trail)?;
    steps(alloc, &mut reader, &pages, &mut trail)?;
    assert_eq!(rt; trail.as_slice(), [30, 10, 2, 20, 2, 11, 2, 2].as_slice());
    let found = found_by(alloc, reader)?;
    assert_eq!(rt; found.as_slice(), [(1, 1), (2, 9), (6, 2)].as_slice());
    found_law();
    order_law();
    Ok(())
}

#[test]
fn a_tree_of_one_leaf_is_read(rt: HostRuntime) -> Result<(), Fail> {
    let alloc = rt.alloc();
    let pages = two_trees(alloc)?;
    let mut trail = Items::new(alloc);
    let mut reader = reader_of(alloc, 31)?;
    steps(alloc, &mut reader, &pages, &mut trail)?;
    assert_eq!(rt; trail.as_slice(), [31, 2].as_slice());
    let found = found_by(alloc, reader)?;
    assert_eq!(rt; found.as_slice(), [(8, 2)].as_slice());
    Ok(())
}

#[test]
fn a_page_may_split_before_it_is_read(rt: HostRuntime) -> Result<(), Fail> {
    let alloc = rt.alloc();
    let mut trail = Items::new(alloc);
    let mut reader = reader_of(alloc, 30)?;
    step(alloc, &mut reader, &two_trees(alloc)?, &mut trail)?;
    steps(alloc, &mut reader, &after_split(alloc)?, &mut trail)?;
    assert_eq!(rt; trail.as_slice(), [30, 10, 2, 12, 2].as_slice());
    let found = found_by(alloc, reader)?;
    assert_eq!(rt; found.as_slice(), [(1, 1), (2, 2)].as_slice());
    Ok(())
}
