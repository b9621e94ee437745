//! Groups with their agreed spellings.

ghost use Rattle.std.specs.Prelude.{◌≡◌, [], ◌∷◌, IfOk};

use crate::{Group, Record};
use rm_base::{Bytes, Items, Lsn, WantOfMemory};
use std::alloc::Global;

/// LSN 1: page 1028 becomes a leaf.
pub const FIRST: [u8; 21] = [
    0, 0, 0, 0x15, 0, 0, 0, 0, 0, 0, 0, 1, 0, 1, 1, 0, 0, 4, 4, 4, 0,
];

/// LSN 2: an item of 16 bytes joins page 1028.
pub const ROW: [u8; 39] = [
    0, 0, 0, 0x27, 0, 0, 0, 0, 0, 0, 0, 2, 0, 1, 3, 0, 0, 4, 4, 0, 0, 0, 0x10, 0x80, 0, 0, 0, 0, 0,
    0, 1, 0, 0, 0, 0, 0, 0, 0, 0x0a,
];

/// That item.
pub const ITEM: [u8; 16] = [0x80, 0, 0, 0, 0, 0, 0, 1, 0, 0, 0, 0, 0, 0, 0, 0x0a];

/// LSN 9: page 1028 is linked to page 1029.
pub const LINK: [u8; 23] = [
    0, 0, 0, 0x17, 0, 0, 0, 0, 0, 0, 0, 9, 0, 1, 6, 0, 0, 4, 4, 0, 0, 4, 5,
];

/// The group that a log begins with: the meta page and its body, the slots page, the catalog's root and
/// the first undo page.
pub const OPENING: [u8; 79] = [
    0, 0, 0, 0x4f, 0, 0, 0, 0, 0, 0, 0, 1, 0, 5, 1, 0, 0, 0, 0, 1, 0, 2, 0, 0, 0, 0, 0, 0x20, 0,
    0x1c, 0, 0, 0, 1, 0, 0, 4, 4, 0, 0, 4, 3, 0, 0, 0, 0, 0, 0, 0, 1, 0, 0, 0, 0, 0, 0, 0, 0, 1, 0,
    0, 0, 1, 2, 0, 1, 0, 0, 4, 2, 4, 0, 1, 0, 0, 4, 3, 6, 0,
];

/// A group of one record.
pub fn group_of_one(alloc: Global, lsn: u64, r: Record) -> Result<Group, WantOfMemory>
    ensures lsn { IfOk result (λ g. g.lsn ≡ lsn) }
    ensures records { IfOk result (λ g. g.records ≡ r ∷ []) }
{
    let mut records = Items::new(alloc);
    records.push(r)?;
    Ok(Group {
        lsn: Lsn::new(lsn),
        records,
    })
}

pub fn bytes_of(alloc: Global, bytes: &[u8]) -> Result<Bytes, WantOfMemory>
    ensures { IfOk result (λ copied. copied ≡ bytes.now) }
{
    let mut copied = Items::new(alloc);
    copied.append(bytes)?;
    Ok(copied)
}
