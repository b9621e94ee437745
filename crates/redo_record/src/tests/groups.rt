use super::vectors::{FIRST, ITEM, LINK, OPENING, ROW, bytes_of, group_of_one};
use crate::*;
use page_image::Kind;
use rm_base::{Bytes, Duplicate, Items, PageId};
use std::test::Fail;

#[test]
fn groups_are_spelled_as_agreed(rt: HostRuntime) -> Result<(), Fail> {
    let alloc = rt.alloc();
    let page = PageId::new(1028).unwrap();
    let first = group_of_one(
        alloc,
        1,
        Record::Make {
            page,
            kind: Kind::Leaf,
            level: 0,
        },
    )?;
    let row = group_of_one(
        alloc,
        2,
        Record::InsertSlot {
            page,
            index: 0,
            bytes: bytes_of(alloc, &ITEM)?,
        },
    )?;
    let link = group_of_one(alloc, 9, Record::Link { page, next: 1029 })?;
    let mut log = Bytes::new(alloc);
    encode(alloc, &first, &mut log)?;
    encode(alloc, &row, &mut log)?;
    encode(alloc, &link, &mut log)?;
    let log = log.as_slice();
    assert_eq!(rt; log.len(), 83);
    assert!(rt; log.starts_with(FIRST.as_slice()));
    assert!(rt; log[21..].starts_with(ROW.as_slice()));
    assert!(rt; log[60..].starts_with(LINK.as_slice()));
    Ok(())
}

#[test]
fn what_is_decoded_is_encoded_again(rt: HostRuntime) -> Result<(), Fail> {
    let alloc = rt.alloc();
    let vectors: [&[u8]; 4] = [&FIRST, &ROW, &LINK, &OPENING];
    for vector in vectors {
        let mut log = Bytes::new(alloc);
        log.append(vector)?;
        log.append(&[7, 7])?;
        let (group, size) = decode(alloc, log.as_slice())?.ok().ok_or("a group")?;
        assert_eq!(rt; size, vector.len());
        let copy = group.copy(alloc)?;
        let mut again = Bytes::new(alloc);
        encode(alloc, &copy, &mut again)?;
        assert_eq!(rt; again.as_slice(), vector);
    }
    Ok(())
}

#[test]
fn bad_groups_are_refused_where_they_break(rt: HostRuntime) -> Result<(), Fail> {
    let alloc = rt.alloc();
    // The place of a byte of the group that links, the byte that stands there instead, and the refusal.
    let rows: [(usize, u8, usize); 8] = [
        (3, 24, 0),
        (3, 13, 0),
        (3, 22, 14),
        (11, 0, 0),
        (13, 0, 0),
        (13, 2, 23),
        (14, 7, 14),
        (20, 0x80, 14),
    ];
    for (place, byte, at) in rows {
        let mut bytes = LINK;
        assert!(rt; place < 23);
        bytes[place] = byte;
        let refused = decode(alloc, &bytes)?.err();
        assert_eq!(rt; refused, Some(BadRecord { at }), "at {place}");
    }
    assert_eq!(rt;
        decode(alloc, &LINK[..22])?.err(),
        Some(BadRecord { at: 0 })
    );
    assert_eq!(rt; decode(alloc, &[])?.err(), Some(BadRecord { at: 0 }));
    Ok(())
}
