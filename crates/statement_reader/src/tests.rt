//! Statements that are read over pages that are handed in one by one.
ghost use Rattle.std.specs.Prelude.{IfSome};
ghost use Rattle.range_reader.specs.Finding.{Asked};
ghost use Rattle.statement_reader.specs.Kept.{asking_of};

use crate::*;
use page_image::{Kind, Page};
use range_reader::Snapshot;
use rm_base::{Items, Lsn, PageId, Stamp, WantOfMemory};
use sql_front::parse;
use std::alloc::Global;
use std::test::Fail;

/// The catalog's items: tables t and u, with roots 1028 and 1029 and one INT column each, a and b.
const TABLE_T: &[u8] =
    b"\x01t\0\0\0\0\0\0\0\0\x01\0\0\0\0\0\0\x02\0\x09\0\0\x04\x04\0\x01\x01a\x01";

const TABLE_U: &[u8] =
    b"\x01u\0\0\0\0\0\0\0\0\x01\0\0\0\0\0\0\x02\0\x09\0\0\x04\x05\0\x01\x01b\x01";

/// A row of one INT, by transaction 1.
const fn row(n: u8) -> [u8; 24] {
    [
        8, 128, 0, 0, 0, 0, 0, 0, n, 0, 0, 0, 0, 0, 0, 0, 0, 1, 0, 0, 0, 0, 0, 0,
    ]
}

/// Transaction 1 was committed first.
const STAMPS: &[u8] = b"\0\0\0\0\0\0\0\x01";

/// The page of that number and kind with the items. None where they do not fit.
fn page_with(
    alloc: Global,
    number: u32,
    kind: Kind,
    items: &[&[u8]],
) -> Result<Option<Page>, WantOfMemory> {
    let Some(id) = PageId::new(number) else {
        return Ok(None);
    };
    let mut page = Page::blank(alloc, id)?;
    if !page.can_make(kind, 0) {
        return Ok(None);
    }
    page.make(kind, 0, Lsn::new(1));
    for item in items {
        let end = page.slots();
        if page.lsn().number() > 1 || !page.can_insert(end, item) {
            return Ok(None);
        }
        page.insert_item(end, item, Lsn::new(1));
    }
    Ok(Some(page))
}

/// The first page of stamps.
fn stamps(alloc: Global) -> Result<Option<Page>, WantOfMemory> {
    let Some(mut page) = page_with(alloc, 2, Kind::Stamps, &[])? else {
        return Ok(None);
    };
    if page.lsn().number() > 1 || !page.can_patch(32, STAMPS) {
        return Ok(None);
    }
    page.patch(32, STAMPS, Lsn::new(1));
    Ok(Some(page))
}

/// Adds the page, if it is one.
fn add(pages: &mut Items<Page>, page: Option<Page>) -> Result<(), WantOfMemory> {
    match page {
        None => Ok(()),
        Some(page) => pages.push(page),
    }
}

/// Table t has the rows 5 and 7, and table u the row 5.
fn two_tables(alloc: Global) -> Result<Items<Page>, WantOfMemory> {
    let mut pages = Items::new(alloc);
    add(
        &mut pages,
        page_with(alloc, 1026, Kind::Leaf, &[TABLE_T, TABLE_U])?,
    )?;
    add(
        &mut pages,
        page_with(alloc, 1028, Kind::Leaf, &[&row(5), &row(7)])?,
    )?;
    add(&mut pages, page_with(alloc, 1029, Kind::Leaf, &[&row(5)])?)?;
    add(&mut pages, stamps(alloc)?)?;
    Ok(pages)
}

/// The page that is wanted, if it is one of these.
fn page_for<'a>(reader: &AskingReader, pages: &'a Items<Page>) -> Option<&'a Page>
    ensures { IfSome result (λ page. Asked (asking_of reader.now) page.now) }
{
    for page in pages.as_slice() {
        if reader.takes(page) {
            return Some(page);
        }
    }
    None
}

/// Gives the page that is wanted, and notes its number.
fn step(
    alloc: Global,
    reader: &mut AskingReader,
    pages: &Items<Page>,
    trail: &mut Items<u32>,
) -> Result<(), WantOfMemory> {
    match page_for(reader, pages) {
        None => Ok(()),
        Some(page) => {
            trail.push(page.page().number())?;
            reader.give(alloc, page)
        }
    }
}

/// Four such steps.
fn steps(
    alloc: Global,
    reader: &mut AskingReader,
    pages: &Items<Page>,
    trail: &mut Items<u32>,
) -> Result<(), WantOfMemory> {
    step(alloc, reader, pages, trail)?;
    step(alloc, reader, pages, trail)?;
    step(alloc, reader, pages, trail)?;
    step(alloc, reader, pages, trail)
}

/// Twelve such steps over the two tables.
fn read_on(
    alloc: Global,
    reader: &mut AskingReader,
    trail: &mut Items<u32>,
) -> Result<(), WantOfMemory> {
    let pages = two_tables(alloc)?;
    steps(alloc, reader, &pages, trail)?;
    steps(alloc, reader, &pages, trail)?;
    steps(alloc, reader, &pages, trail)
}

/// A reader of a statement, with the first commit. None where the text is none.
fn reader_of(alloc: Global, text: &[u8]) -> Result<Option<AskingReader>, WantOfMemory> {
    let Ok(statement) = parse(alloc, text)? else {
        return Ok(None);
    };
    let snapshot = Snapshot {
        stamp: Stamp::new(1),
        own: None,
    };
    Ok(Some(AskingReader::begin(alloc, snapshot, statement)?))
}

/// How many left rows and lists of right rows were found.
fn counts_of(reader: AskingReader) -> Option<(usize, usize)> {
    match reader.into_read() {
        None => None,
        Some(read) => Some((read.found.rows.left.len(), read.found.rows.right.len())),
    }
}

/// Reads a statement, and notes the pages that it is given.
fn read(
    alloc: Global,
    text: &[u8],
    trail: &mut Items<u32>,
) -> Result<Option<(usize, usize)>, WantOfMemory> {
    let Some(mut reader) = reader_of(alloc, text)? else {
        return Ok(None);
    };
    read_on(alloc, &mut reader, trail)?;
    Ok(counts_of(reader))
}

#[test]
fn a_table_is_looked_up_and_read(rt: HostRuntime) -> Result<(), Fail> {
    let mut trail = Items::new(rt.alloc());
    let found = read(rt.alloc(), b"SELECT * FROM t", &mut trail)?;
    assert_eq!(rt; trail.as_slice(), [1026, 2, 1028, 2, 2].as_slice());
    assert_eq!(rt; found, Some((2, 0)));
    answer_law();
    read_laws();
    Ok(())
}

#[test]
fn each_left_row_has_its_right_rows(rt: HostRuntime) -> Result<(), Fail> {
    let mut trail = Items::new(rt.alloc());
    let found = read(
        rt.alloc(),
        b"SELECT * FROM t JOIN u ON t.a = u.b",
        &mut trail,
    )?;
    assert_eq!(rt;
        trail.as_slice(),
        [1026, 2, 1026, 2, 1028, 2, 2, 1029, 2, 1029].as_slice()
    );
    assert_eq!(rt; found, Some((2, 2)));
    Ok(())
}

#[test]
fn a_table_that_there_is_not_has_no_rows(rt: HostRuntime) -> Result<(), Fail> {
    let mut trail = Items::new(rt.alloc());
    let found = read(rt.alloc(), b"DELETE FROM v WHERE c = 1", &mut trail)?;
    assert_eq!(rt; trail.as_slice(), [1026].as_slice());
    assert_eq!(rt; found, Some((0, 0)));
    Ok(())
}
