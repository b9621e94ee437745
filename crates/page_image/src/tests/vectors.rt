use super::slow;
use crate::{Kind, Page};
use rm_base::{Duplicate, Lsn, PageId};
use std::alloc::{AllocError, Global};
use std::process::Abort;
use std::test::Fail;

/// A leaf item of 31 bytes, with key 7.
const ITEM: [u8; 31] = [
    8, 0x80, 0, 0, 0, 0, 0, 0, 7, 0, 0, 0, 0, 0, 0, 0, 0, 1, 0, 0, 4, 3, 0, 0, 2, 0, 3, 0x61, 0x6e,
    0x6e, 0,
];

/// The header and the slot of leaf page 1028 at LSN 6, made at LSN 3, with that item.
const FRONT: [u8; 34] = [
    4, 0, 0, 1, 0, 0, 4, 4, 0, 0, 0, 0, 0, 0, 0, 6, 0, 0, 0, 0, 0, 0, 0, 3, 0, 0, 0, 0, 0x0f, 0xe1,
    0, 0, 0x0f, 0xe1,
];

/// A byte of that page, its new value, and the offset at which the bytes are then no page.
const FAULTS: [(usize, u8, u16); 16] = [
    (0, 7, 0),
    (0, 0, 2),
    (1, 1, 1),
    (2, 6, 2),
    (3, 0, 28),
    (4, 128, 4),
    (15, 0, 8),
    (23, 7, 16),
    (25, 1, 24),
    (29, 0, 28),
    (30, 1, 30),
    (31, 255, 31),
    (33, 0, 28),
    (34, 1, 34),
    (4064, 255, 4064),
    (26, 255, 24),
];

#[test]
fn a_leaf_is_spelled_as_agreed(rt: HostRuntime) -> Result<(), Fail> {
    let number = PageId::new(1028).expect(&rt, "a page's number");
    let mut page = Page::blank(rt.alloc(), number)?;
    assert!(rt; page.can_make(Kind::Leaf, 0));
    page.make(Kind::Leaf, 0, Lsn::new(3));
    assert!(rt; page.can_insert(0, &ITEM));
    page.insert_item(0, &ITEM, Lsn::new(6));
    assert!(rt; page.bytes().starts_with(FRONT.as_slice()));
    assert_eq!(rt; page.item(0), Some(ITEM.as_slice()));
    assert_eq!(rt; page.item(1), None);
    assert_eq!(rt; page.free(), 4096 - 34 - 31);
    let copy = page.copy(rt.alloc())?;
    assert_eq!(rt; copy.bytes(), page.bytes());
    Ok(())
}

/// The bytes of that page, written out.
fn spelled(alloc: Global) -> Result<Vec<u8>, AllocError> {
    let mut bytes = Vec::from_slice(alloc, FRONT.as_slice())?;
    for _ in 0..4096 - 34 - 31 {
        bytes.push(0)?;
    }
    bytes.extend_from_slice(ITEM.as_slice())?;
    Ok(bytes)
}

/// Where `check` says that the bytes are no page. It and the slow reading judge alike.
fn judged(rt: &impl Abort, alloc: Global, bytes: &[u8]) -> Result<Option<u16>, Fail> {
    let fault = Page::check(alloc, bytes)?.err().map(|bad| bad.at);
    assert_eq!(rt; fault.map(usize::from), slow::fault(bytes));
    Ok(fault)
}

fn judged_with(rt: &impl Abort, alloc: Global, at: usize, value: u8) -> Result<Option<u16>, Fail> {
    let mut bytes = spelled(alloc)?;
    if let Some(byte) = bytes.get_mut(at) {
        *byte = value;
    }
    judged(rt, alloc, bytes.as_slice())
}

#[test]
fn a_changed_byte_is_found(rt: HostRuntime) -> Result<(), Fail> {
    for (at, value, fault) in FAULTS {
        assert_eq!(rt; judged_with(&rt, rt.alloc(), at, value)?, Some(fault));
    }
    for at in 0..34 {
        let _fault = judged_with(&rt, rt.alloc(), at, 255)?;
    }
    for at in 4065..4096 {
        assert_eq!(rt; judged_with(&rt, rt.alloc(), at, 255)?, None);
    }
    let mut bytes = spelled(rt.alloc())?;
    bytes.truncate(4095);
    assert_eq!(rt; judged(&rt, rt.alloc(), bytes.as_slice())?, Some(4096));
    Ok(())
}
