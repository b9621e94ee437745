ghost use Rattle.std.specs.Prelude.{◌≡◌, IfSome};
ghost use Rattle.bplus_tree.specs.Walk.{IsToRead};

use crate::*;
use page_image::{Kind, Page};
use rm_base::{Bytes, Items, KeyRange, Lsn, PageId, WantOfMemory};
use std::alloc::Global;
use std::test::Fail;

/// A leaf item of a key of one byte, without a value.
const fn leaf(key: u8) -> [u8; 17] {
    [1, key, 0, 0, 0, 0, 0, 0, 0, 0, 1, 0, 0, 0, 0, 0, 0]
}

/// Leaf items of the keys 1 and 2.
const ONE: &[u8] = b"\x01\x01\0\0\0\0\0\0\0\0\x01\0\0\0\0\0\0";

const TWO: &[u8] = b"\x01\x02\0\0\0\0\0\0\0\0\x01\0\0\0\0\0\0";

/// The page of that number, kind and next page, with the items. None where they do not fit.
fn page_with(
    alloc: Global,
    number: u32,
    kind: Kind,
    next: u32,
    items: &[&[u8]],
) -> Result<Option<Page>, WantOfMemory> {
    let Some(id) = PageId::new(number) else {
        return Ok(None);
    };
    let mut page = Page::blank(alloc, id)?;
    let level = u8::from(kind == Kind::Inner);
    if !page.can_make(kind, level) {
        return Ok(None);
    }
    page.make(kind, level, Lsn::new(1));
    for item in items {
        let end = page.slots();
        if page.lsn().number() > 1 || !page.can_insert(end, item) {
            return Ok(None);
        }
        page.insert_item(end, item, Lsn::new(1));
    }
    if page.lsn().number() > 1 || !page.can_link(next) {
        return Ok(None);
    }
    page.link(next, Lsn::new(1));
    Ok(Some(page))
}

/// The page that is wanted, where it can be read.
fn page_of(pages: &Items<Page>, wanted: PageId) -> Option<&Page>
    ensures { IfSome result (λ page. (page.now.page ≡ wanted) × IsToRead page.now) }
{
    for page in pages.as_slice() {
        if page.page() == wanted && can_be_read(page) {
            return Some(page);
        }
    }
    None
}

/// A root over three leaves: 1 and 3 on page 10, 5 and 7 on page 11, 9 on page 12.
fn three_leaves(alloc: Global) -> Result<Option<Items<Page>>, WantOfMemory> {
    let entries: [&[u8]; 3] = [
        b"\0\0\0\0\x0a",
        b"\x01\x05\0\0\0\x0b",
        b"\x01\x09\0\0\0\x0c",
    ];
    let mut pages = Items::new(alloc);
    for page in [
        page_with(alloc, 30, Kind::Inner, 0, &entries)?,
        page_with(alloc, 10, Kind::Leaf, 11, &[&leaf(1), &leaf(3)])?,
        page_with(alloc, 11, Kind::Leaf, 12, &[&leaf(5), &leaf(7)])?,
        page_with(alloc, 12, Kind::Leaf, 0, &[&leaf(9)])?,
    ] {
        let Some(page) = page else {
            return Ok(None);
        };
        pages.push(page)?;
    }
    Ok(Some(pages))
}

fn end_of(alloc: Global, key: Option<u8>) -> Result<Option<Bytes>, WantOfMemory> {
    let Some(key) = key else {
        return Ok(None);
    };
    let mut bytes = Bytes::new(alloc);
    bytes.push(key)?;
    Ok(Some(bytes))
}

/// The leaves of a walk, or none where it asks for a page that is not there.
fn leaves_of(
    alloc: Global,
    pages: &Items<Page>,
    low: Option<u8>,
    high: Option<u8>,
) -> Result<Option<Items<u32>>, WantOfMemory> {
    let range = KeyRange {
        low: end_of(alloc, low)?,
        high: end_of(alloc, high)?,
    };
    let mut walk = LeafWalk::new(PageId::new(30).unwrap(), range);
    let mut leaves = Items::new(alloc);
    for _ in 0..9 {
        if let Want::Leaf(leaf) = walk.next() {
            leaves.push(leaf.number())?;
        }
        let Some(wanted) = walk.next().page() else {
            return Ok(Some(leaves));
        };
        let Some(page) = page_of(pages, wanted) else {
            return Ok(None);
        };
        walk.give(page);
    }
    Ok(None)
}

#[test]
fn a_walk_gives_the_leaves_of_its_range(rt: HostRuntime) -> Result<(), Fail> {
    let pages = three_leaves(rt.alloc())?.ok_or("no pages")?;
    let cases: [(Option<u8>, Option<u8>, &[u32]); 8] = [
        (None, None, &[10, 11, 12]),
        (Some(3), Some(6), &[10, 11]),
        (Some(5), Some(5), &[11]),
        (Some(4), Some(4), &[10]),
        (Some(8), Some(8), &[11]),
        (Some(9), None, &[12]),
        (None, Some(1), &[10]),
        (Some(6), Some(2), &[11]),
    ];
    for (low, high, leaves) in cases {
        let found = leaves_of(rt.alloc(), &pages, low, high)?.ok_or("a page is missing")?;
        assert_eq!(rt; found.as_slice(), leaves, "{low:?} {high:?}");
    }
    search_laws();
    Ok(())
}

#[test]
fn a_descent_ends_at_the_leaf_of_its_key(rt: HostRuntime) -> Result<(), Fail> {
    let pages = three_leaves(rt.alloc())?.ok_or("no pages")?;
    for (key, leaf) in [
        (0, 10),
        (1, 10),
        (4, 10),
        (5, 11),
        (8, 11),
        (9, 12),
        (200, 12),
    ] {
        let key = end_of(rt.alloc(), Some(key))?.ok_or("no key")?;
        let mut descent = Descent::new(PageId::new(30).unwrap(), key);
        for number in [30, leaf, leaf] {
            let wanted = descent.next().page().ok_or("too early")?;
            assert_eq!(rt; wanted.number(), number);
            let page = page_of(&pages, wanted).ok_or("a page is missing")?;
            descent.give(page);
        }
        assert_eq!(rt; descent.next(), Want::Finished);
    }
    Ok(())
}

/// Whether a page of the kind with the items can be read. None where they do not fit.
fn reads(alloc: Global, kind: Kind, items: &[&[u8]]) -> Result<Option<bool>, WantOfMemory> {
    let page = page_with(alloc, 10, kind, 0, items)?;
    Ok(page.map(|page| can_be_read(&page)))
}

#[test]
fn pages_with_other_items_cannot_be_read(rt: HostRuntime) -> Result<(), Fail> {
    let alloc = rt.alloc();
    assert_eq!(rt; reads(alloc, Kind::Leaf, &[])?, Some(true));
    assert_eq!(rt; reads(alloc, Kind::Leaf, &[ONE, TWO])?, Some(true));
    assert_eq!(rt; reads(alloc, Kind::Leaf, &[TWO, ONE])?, Some(false));
    assert_eq!(rt; reads(alloc, Kind::Leaf, &[b"\x01a"])?, Some(false));
    assert_eq!(rt; reads(alloc, Kind::Inner, &[])?, Some(false));
    assert_eq!(rt;
        reads(alloc, Kind::Inner, &[b"\x01a\0\0\0\x0a"])?,
        Some(false)
    );
    assert_eq!(rt; reads(alloc, Kind::Undo, &[ONE])?, Some(false));
    Ok(())
}
