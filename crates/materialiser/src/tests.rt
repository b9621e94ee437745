use crate::*;
use page_image::Page;
use redo_record::{Groups, decode};
use rm_base::{Items, Lsn, PageId, WantOfMemory};
use std::alloc::Global;
use std::test::Fail;

/// Page 1028 is made a leaf by group 1, gets an item by group 2, and another by group 3, beside an item of
/// page 1029 and a link. Group 4 takes the first item out.
const LOG: [&[u8]; 4] = [
    b"\0\0\0\x15\0\0\0\0\0\0\0\x01\0\x01\x01\0\0\x04\x04\x04\0",
    b"\0\0\0\x19\0\0\0\0\0\0\0\x02\0\x01\x03\0\0\x04\x04\0\0\0\x02hi",
    b"\0\0\0\x2b\0\0\0\0\0\0\0\x03\0\x03\x03\0\0\x04\x04\0\x01\0\x01!\x03\0\0\x04\x05\0\0\0\x01?\x06\0\0\x04\x04\0\0\x04\x05",
    b"\0\0\0\x15\0\0\0\0\0\0\0\x04\0\x01\x04\0\0\x04\x04\0\0",
];

fn groups(alloc: Global, log: &[&[u8]]) -> Result<Option<Groups>, WantOfMemory> {
    let mut groups = Items::new(alloc);
    for bytes in log {
        let Ok((group, _)) = decode(alloc, bytes)? else {
            return Ok(None);
        };
        groups.push(group)?;
    }
    Ok(Some(groups))
}

/// The page as the groups up to an LSN bring the base forward, and None where they do not apply.
fn merged(
    alloc: Global,
    base: &Page,
    groups: &Groups,
    upto: u64,
) -> Result<Option<Page>, WantOfMemory> {
    if !ascends(groups) {
        return Ok(None);
    }
    Ok(try_merge(alloc, base, groups, Lsn::new(upto))?.ok())
}

#[test]
fn a_page_is_merged_from_its_base_and_the_groups_past_it(rt: HostRuntime) -> Result<(), Fail> {
    let groups = groups(rt.alloc(), &LOG)?.ok_or("no groups")?;
    let blank = Page::blank(rt.alloc(), PageId::new(1028).unwrap())?;
    let cases = [
        (0, 0, 0u64),
        (1, 0, 1),
        (2, 1, 2),
        (3, 2, 3),
        (4, 1, 4),
        (9, 1, 4),
    ];
    for (upto, items, lsn) in cases {
        let page = merged(rt.alloc(), &blank, &groups, upto)?.ok_or("refused")?;
        assert_eq!(rt;
            (page.slots(), page.lsn().number()),
            (items, lsn),
            "up to {upto}"
        );
        let later = merged(rt.alloc(), &page, &groups, 4)?.ok_or("refused")?;
        assert_eq!(rt; later.item(0), Some(b"!".as_slice()));
        assert_eq!(rt; later.next(), 1029);
    }
    let other = Page::blank(rt.alloc(), PageId::new(1029).unwrap())?;
    assert!(rt;
        merged(rt.alloc(), &other, &groups, 4)?.is_none(),
        "page 1029 was never made"
    );
    let untouched = merge(rt.alloc(), &blank, &Items::new(rt.alloc()), Lsn::new(4))?;
    assert_eq!(rt; untouched.lsn().number(), 0);
    Ok(())
}

#[test]
fn a_version_is_the_last_that_is_not_past_the_lsn(rt: HostRuntime) -> Result<(), Fail> {
    let groups = groups(rt.alloc(), &LOG)?.ok_or("no groups")?;
    let blank = Page::blank(rt.alloc(), PageId::new(1028).unwrap())?;
    let mut images = PageRow::new(rt.alloc());
    assert_eq!(rt; version(&images, Lsn::new(9)), None);
    for upto in [1, 3] {
        images.push(merged(rt.alloc(), &blank, &groups, upto)?.ok_or("refused")?)?;
    }
    for (at, place) in [
        (0, None),
        (1, Some(0)),
        (2, Some(0)),
        (3, Some(1)),
        (4, Some(1)),
    ] {
        assert_eq!(rt; version(&images, Lsn::new(at)), place, "at {at}");
    }
    Ok(())
}
