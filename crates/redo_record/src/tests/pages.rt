use super::vectors::{ITEM, OPENING, bytes_of};
use crate::*;
use page_image::{Kind, Page};
use rm_base::{Lsn, PageId, WantOfMemory};
use std::alloc::Global;
use std::test::Fail;

/// The bytes from 32 on of the meta page that a log begins with: format, page count, undo page, next
/// transaction number, last stamp.
const META: [u8; 28] = [
    0, 0, 0, 1, 0, 0, 4, 4, 0, 0, 4, 3, 0, 0, 0, 0, 0, 0, 0, 1, 0, 0, 0, 0, 0, 0, 0, 0,
];

/// The page after one group, and how many of the group's records were for it and applied.
fn after_group(alloc: Global, page: u32, group: &Group) -> Result<(Page, u32), WantOfMemory> {
    let number = PageId::new(page).unwrap_or(PageId::default());
    let mut page = Page::blank(alloc, number)?;
    let mut applied = 0u32;
    for r in group.records.as_slice() {
        if r.page() == page.page() && group.lsn.number() >= 1 && page.lsn() <= group.lsn {
            if apply(&mut page, r, group.lsn).is_ok() {
                applied = applied.wrapping_add(1);
            }
        }
    }
    Ok((page, applied))
}

#[test]
fn the_opening_group_makes_four_pages(rt: HostRuntime) -> Result<(), Fail> {
    let alloc = rt.alloc();
    let (group, _) = decode(alloc, &OPENING)?.ok().ok_or("a group")?;
    let rows = [
        (0, Kind::Meta, 2),
        (1, Kind::Slots, 1),
        (2, Kind::Unmade, 0),
        (1026, Kind::Leaf, 1),
        (1027, Kind::Undo, 1),
    ];
    for (number, kind, applied) in rows {
        let (page, count) = after_group(alloc, number, &group)?;
        assert_eq!(rt; page.kind(), kind, "page {number}");
        assert_eq!(rt; count, applied, "page {number}");
        if number == 0 {
            assert!(rt; page.bytes()[32..].starts_with(META.as_slice()));
        }
    }
    Ok(())
}

#[test]
fn each_kind_of_record_is_applied_or_refused(rt: HostRuntime) -> Result<(), Fail> {
    let alloc = rt.alloc();
    let page = PageId::new(1028).unwrap();
    let leaf = Record::Make {
        page,
        kind: Kind::Leaf,
        level: 0,
    };
    let inner = Record::Make {
        page,
        kind: Kind::Inner,
        level: 1,
    };
    let first = Record::InsertSlot {
        page,
        index: 0,
        bytes: bytes_of(alloc, &ITEM)?,
    };
    let third = Record::InsertSlot {
        page,
        index: 2,
        bytes: bytes_of(alloc, b"third")?,
    };
    let second = Record::InsertSlot {
        page,
        index: 1,
        bytes: bytes_of(alloc, b"second")?,
    };
    let remove = Record::RemoveSlot { page, index: 1 };
    let cut = Record::Cut { page, from: 0 };
    let link = Record::Link { page, next: 1029 };
    let patch = Record::Patch {
        page,
        at: 32,
        bytes: bytes_of(alloc, b"body")?,
    };
    // A record, whether it applies, and how many items the page has after it.
    let rows: [(&Record, bool, u16); 13] = [
        (&first, false, 0),
        (&leaf, true, 0),
        (&patch, false, 0),
        (&first, true, 1),
        (&third, false, 1),
        (&second, true, 2),
        (&inner, false, 2),
        (&remove, true, 1),
        (&remove, false, 1),
        (&link, true, 1),
        (&cut, true, 0),
        (&leaf, false, 0),
        (&inner, true, 0),
    ];
    let mut image = Page::blank(alloc, page)?;
    for (r, applies, items) in rows {
        let lsn = Lsn::new(image.lsn().number().wrapping_add(1));
        assert!(rt; r.page() == image.page() && lsn.number() >= 1 && image.lsn() <= lsn);
        assert_eq!(rt; apply(&mut image, r, lsn).is_ok(), applies, "{r:?}");
        assert_eq!(rt; image.slots(), items, "{r:?}");
    }
    assert_eq!(rt; image.kind(), Kind::Inner);
    assert_eq!(rt; image.next(), 0);
    Ok(())
}

#[test]
fn laws_do_nothing(rt: HostRuntime) {
    grammar_laws();
    fold_laws();
    let _runtime = rt;
}
