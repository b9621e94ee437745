ghost use Rattle.std.specs.Prelude.{◌≡◌, ◌≤◌, ◌-◌, ◌++◌, ℕ, List, length, ok_or, IfOk, IfErr, OnErr};
ghost use Rattle.redo_record.specs.Reading.{record_at};
ghost use Rattle.redo_record.specs.Decoding.{records_at, group_at};
ghost use Rattle.redo_record.specs.Decodes.{Decodes, DecodesFrom, IsJudged};
ghost use Rattle.redo_record.specs.Spelling.{group_bytes, IsGroup, BeginsWith};
ghost use Rattle.redo_record.specs.Refusal.{BeginsNoGroup, IsRefusedAt};

use crate::reader::{Reader, Unread};
use crate::redo::{GROUP_HEADER_BYTES, Group, Record, Records};
use rm_base::{Items, Lsn, WantOfMemory, get_u16, get_u32, get_u64};
use std::alloc::Global;
use thiserror::Error;

/// The bytes begin with no group. `at` is an offset in bytes: of the first record that is none or passes
/// the group's end; or 0, where the group has no whole header, its length is below 14 or above the bytes
/// that are there, its LSN or count is 0, or its records leave bytes of it over.
#[derive(Clone, Copy, Debug, PartialEq, Eq, Error)]
#[error("bad record at {at}")]
pub struct BadRecord {
    pub at: usize,
}

/// Why the reading of a group stopped.
#[derive(Clone, Copy, Debug, PartialEq, Eq)]
pub enum Stop {
    BadRecord(BadRecord),
    WantOfMemory,
}

impl From<WantOfMemory> for Stop {
    ghost use Rattle.std.specs.Prelude.{◌≡◌};
    ghost use Rattle.redo_record.specs.declared.decoding.Stop.TheVariants.{WantOfMemory as NoMemory};

    ghost from_gives = { λ _ e. e ≡ NoMemory };

    fn from(_e: WantOfMemory) -> Stop {
        Stop::WantOfMemory
    }
}

/// The next record. `end` is the offset at which the reader's bytes end.
fn next_record(reader: &mut Reader, alloc: Global, end: usize) -> Result<Record, Stop>
    requires { length reader.old ≤ end }
    ensures { DecodesFrom result reader.new (ok_or (record_at reader.old) (end - length reader.old)) }
{
    let at = end - reader.len();
    match reader.record(alloc) {
        Ok(record) => Ok(record),
        Err(Unread::Malformed) => Err(Stop::BadRecord(BadRecord { at })),
        Err(Unread::WantOfMemory) => Err(Stop::WantOfMemory),
    }
}

/// So many records one after the other. `end` is the offset at which the reader's bytes end.
fn next_records(reader: &mut Reader, alloc: Global, end: usize, count: u16) -> Result<Records, Stop>
    requires { length reader.old ≤ end }
    ensures { DecodesFrom result reader.new (records_at end count reader.old) }
{
    let mut records = Items::new(alloc);
    for _ in 0..count {
        let record = next_record(reader, alloc, end)?;
        records.push(record)?;
    }
    Ok(records)
}

/// The group at the front of the bytes, and how many bytes it has.
#[tactic(auto, unfolding(crate::specs::Decoding::group_at, crate::specs::Decoding::group_of))]
fn group(alloc: Global, bytes: &[u8]) -> Result<(Group, usize), Stop>
    ensures { Decodes result (group_at bytes.now) }
{
    if bytes.len() < GROUP_HEADER_BYTES {
        return Err(Stop::BadRecord(BadRecord { at: 0 }));
    }
    let size = get_u32(bytes, 0) as usize;
    let lsn = get_u64(bytes, 4);
    let count = get_u16(bytes, 12);
    if size < GROUP_HEADER_BYTES || size > bytes.len() || lsn < 1 || count < 1 {
        return Err(Stop::BadRecord(BadRecord { at: 0 }));
    }
    let mut reader = Reader::over(&bytes[GROUP_HEADER_BYTES..size]);
    let records = next_records(&mut reader, alloc, size, count)?;
    if !reader.is_empty() {
        return Err(Stop::BadRecord(BadRecord { at: 0 }));
    }
    let group = Group {
        lsn: Lsn::new(lsn),
        records,
    };
    Ok((group, size))
}

/// The group at the front of the bytes, and how many bytes it has. Bytes may follow it.
pub fn decode(
    alloc: Global,
    bytes: &[u8],
) -> Result<Result<(Group, usize), BadRecord>, WantOfMemory>
    // What is read is spelled so.
    ensures found { IfOk result (λ judged. IfOk judged (λ read. BeginsWith bytes.now read.0 read.1)) }

    // What is spelled so is read, whatever follows it.
    ensures again { IfOk result (λ judged. (g : Group) (rest : List ℕ) → IsGroup g
        → bytes.now ≡ group_bytes g ++ rest → judged ≡ Ok (g, length (group_bytes g))) }

    // Only what begins no group is refused, and at the offset that the grammar says.
    ensures no_group { IfOk result (λ judged. OnErr judged (BeginsNoGroup bytes.now)) }
    ensures offset { IfOk result (λ judged. IfErr judged (λ bad. IsRefusedAt bytes.now bad.at)) }

    // The same as a reading from left to right.
    ensures exact { IfOk result (λ judged. IsJudged judged (group_at bytes.now)) }
{
    match group(alloc, bytes) {
        Ok(read) => Ok(Ok(read)),
        Err(Stop::BadRecord(bad)) => Ok(Err(bad)),
        Err(Stop::WantOfMemory) => Err(WantOfMemory),
    }
}
