ghost use Rattle.std.specs.Prelude.{◌<◌};

use crate::*;
use materialiser::{ascends, try_merge};
use message_model::Got;
use page_image::{Kind, Page};
use redo_record::{Group, Groups, Record, decode};
use rm_base::{Bytes, Items, Lsn, PageId, WantOfMemory};
use std::alloc::Global;
use std::test::Fail;

/// Page 1028 is made a leaf by group 1, gets an item by group 2, and another by group 4, beside one of
/// page 1029, which is made there. Group 3 makes page 1280, which is none of chunk 4.
const LOG: [&[u8]; 4] = [
    b"\0\0\0\x15\0\0\0\0\0\0\0\x01\0\x01\x01\0\0\x04\x04\x04\0",
    b"\0\0\0\x19\0\0\0\0\0\0\0\x02\0\x01\x03\0\0\x04\x04\0\0\0\x02hi",
    b"\0\0\0\x15\0\0\0\0\0\0\0\x03\0\x01\x01\0\0\x05\0\x04\0",
    b"\0\0\0\x29\0\0\0\0\0\0\0\x04\0\x03\x03\0\0\x04\x04\0\x01\0\x01!\x01\0\0\x04\x05\x04\0\x03\0\0\x04\x05\0\0\0\x01?",
];

/// Ships the group. False where it is not the next or does not apply.
fn shipped(chunk: &mut PageChunk, alloc: Global, g: &Group) -> Result<bool, WantOfMemory> {
    if !chunk.can_ship(alloc, g)? {
        return Ok(false);
    }
    chunk.ship(alloc, g)?;
    Ok(true)
}

/// The answer for a page, and None for a page of another chunk.
fn answer(
    chunk: &PageChunk,
    alloc: Global,
    p: PageId,
    floor: u64,
) -> Result<Option<Got>, WantOfMemory> {
    if !chunk.holds(p) {
        return Ok(None);
    }
    Ok(Some(chunk.get(alloc, p, Lsn::new(floor))?))
}

/// Folds the page, and says whether it had records to fold.
fn folded(chunk: &mut PageChunk, alloc: Global, p: PageId) -> Result<bool, WantOfMemory> {
    if !chunk.holds(p) {
        return Ok(false);
    }
    let had = chunk.pending(p);
    chunk.fold(alloc, p)?;
    Ok(had)
}

#[test]
fn an_image_is_given_once_the_groups_are_there(rt: HostRuntime) -> Result<(), Fail> {
    let alloc = rt.alloc();
    let p = PageId::new(1028).unwrap();
    let mut chunk = PageChunk::new(alloc, 4)?;
    assert!(rt; matches!(answer(&chunk, alloc, p, 1)?, Some(Got::NotYet { .. })));
    for bytes in LOG {
        let (group, _) = decode(alloc, bytes)?.ok().ok_or("no group")?;
        assert!(rt; shipped(&mut chunk, alloc, &group)?);
        assert!(rt; !shipped(&mut chunk, alloc, &group)?, "it is not the next");
    }
    for had in [true, false] {
        match answer(&chunk, alloc, p, 5)?.ok_or("other chunk")? {
            Got::NotYet { applied } => assert_eq!(rt; applied.number(), 4),
            Got::Image(_) => panic!(rt; "an image before its groups"),
        }
        match answer(&chunk, alloc, p, 4)?.ok_or("other chunk")? {
            Got::NotYet { .. } => panic!(rt; "no image of groups that are there"),
            Got::Image(page) => {
                assert_eq!(rt; (page.lsn().number(), page.slots()), (4, 2));
                assert_eq!(rt; page.item(1), Some(b"!".as_slice()));
            }
        }
        assert_eq!(rt; folded(&mut chunk, alloc, p)?, had);
    }
    let next = PageId::new(1029).unwrap();
    assert!(rt; folded(&mut chunk, alloc, next)?);
    assert!(rt; answer(&chunk, alloc, PageId::new(1280).unwrap(), 0)?.is_none());
    Ok(())
}

/// A small generator of numbers.
#[derive(Drop)]
struct Dice(u32);

impl Dice {
    fn roll(&mut self, sides: u32) -> u32
        requires { 0 < sides }
        ensures { result < sides }
    {
        self.0 = self.0.wrapping_mul(1_664_525).wrapping_add(1_013_904_223);
        (self.0 >> 16) % sides
    }

    /// Three pages of chunk 4, and 1282.
    fn page(&mut self) -> PageId {
        PageId::new(1024 + 86 * self.roll(4)).unwrap()
    }

    fn bytes(&mut self, alloc: Global) -> Result<Bytes, WantOfMemory> {
        let mut bytes = Bytes::new(alloc);
        for _ in 0..=self.roll(9) {
            bytes.push(self.roll(256) as u8)?;
        }
        Ok(bytes)
    }

    fn make(&mut self) -> Record {
        let page = self.page();
        let (kind, level) = match self.roll(4) {
            0 => (Kind::Meta, 0),
            1 => (Kind::Leaf, 0),
            2 => (Kind::Inner, 1),
            _ => (Kind::Undo, 0),
        };
        Record::Make { page, kind, level }
    }

    fn record(&mut self, alloc: Global) -> Result<Record, WantOfMemory> {
        let page = self.page();
        let place = self.roll(3) as u16;
        let at = 32 + self.roll(4000) as u16;
        let record = match self.roll(8) {
            0 => self.make(),
            1 | 2 => Record::Patch {
                page,
                at,
                bytes: self.bytes(alloc)?,
            },
            3 | 4 => Record::InsertSlot {
                page,
                index: place,
                bytes: self.bytes(alloc)?,
            },
            5 => Record::RemoveSlot { page, index: place },
            6 => Record::Cut { page, from: place },
            _ => Record::Link {
                page,
                next: self.roll(9),
            },
        };
        Ok(record)
    }

    fn group(&mut self, alloc: Global, lsn: u64) -> Result<Group, WantOfMemory> {
        let mut records = Items::new(alloc);
        for _ in 0..=self.roll(2) {
            records.push(self.record(alloc)?)?;
        }
        Ok(Group {
            lsn: Lsn::new(lsn),
            records,
        })
    }
}

/// Whether the chunk's image is that of a plain fold of the groups.
fn as_folded(
    chunk: &PageChunk,
    alloc: Global,
    p: PageId,
    groups: &Groups,
) -> Result<bool, WantOfMemory> {
    if !ascends(groups) {
        return Ok(false);
    }
    let blank = Page::blank(alloc, p)?;
    let upto = chunk.applied();
    match (
        try_merge(alloc, &blank, groups, upto)?,
        answer(chunk, alloc, p, upto.number())?,
    ) {
        (Ok(plain), Some(Got::Image(page))) => Ok(page.bytes() == plain.bytes()),
        _ => Ok(false),
    }
}

#[test]
fn images_are_those_of_a_plain_fold(rt: HostRuntime) -> Result<(), Fail> {
    let alloc = rt.alloc();
    let mut dice = Dice(7);
    let mut chunk = PageChunk::new(alloc, 4)?;
    let mut groups = Groups::new(alloc);
    for round in 0..200u32 {
        let lsn = chunk.applied().number().wrapping_add(1);
        let group = dice.group(alloc, lsn)?;
        if shipped(&mut chunk, alloc, &group)? {
            groups.push(group)?;
        }
        if dice.roll(3) == 0 {
            folded(&mut chunk, alloc, dice.page())?;
        }
        for place in 0..3 {
            let p = PageId::new(1024 + 86 * place).unwrap();
            assert!(rt;
                as_folded(&chunk, alloc, p, &groups)?,
                "page {place} in round {round}"
            );
        }
    }
    assert_eq!(rt; chunk.applied().number(), groups.len() as u64);
    assert!(rt; groups.len() > 60, "{} groups", groups.len());
    Ok(())
}
