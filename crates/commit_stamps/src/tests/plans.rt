//! The bytes of plans, worked by hand.
ghost use Rattle.std.specs.Prelude.{◌≡◌, ◌≤◌, length};
ghost use Rattle.std.specs.List.{AllByRecursion};
ghost use Rattle.redo_record.specs.Spelling.{IsAdmitted};

use super::pages::{is_page_of, meta_page, slots_page, slots_with, stamp_page};
use crate::{begin_plan, commit_plan, free_plan, last_stamp, next_number};
use redo_record::{Group, Plan, encode};
use rm_base::{Bytes, Lsn, SessionId, WantOfMemory};
use std::alloc::Global;
use std::test::Fail;

/// LSN 2: transaction 1 begins in slot 0, and page 2 is made for its stamp.
const FIRST: [u8; 63] = [
    0, 0, 0, 0x3f, 0, 0, 0, 0, 0, 0, 0, 2, 0, 3, 1, 0, 0, 0, 2, 3, 0, 2, 0, 0, 0, 1, 0, 0x20, 0,
    0x10, 0, 0, 0, 0, 0, 0, 0, 1, 0, 0, 0, 0, 0, 0, 0, 0, 2, 0, 0, 0, 0, 0, 0x2c, 0, 8, 0, 0, 0, 0,
    0, 0, 0, 2,
];

/// LSN 2: transaction 2 begins in slot 3.
const SECOND: [u8; 56] = [
    0, 0, 0, 0x38, 0, 0, 0, 0, 0, 0, 0, 2, 0, 2, 2, 0, 0, 0, 1, 0, 0x50, 0, 0x10, 0, 0, 0, 0, 0, 0,
    0, 2, 0, 0, 0, 0, 0, 0, 0, 0, 2, 0, 0, 0, 0, 0, 0x2c, 0, 8, 0, 0, 0, 0, 0, 0, 0, 3,
];

/// LSN 2: transaction 2 in slot 3 gets the stamp 8, and the slot becomes free.
const COMMIT: [u8; 73] = [
    0, 0, 0, 0x49, 0, 0, 0, 0, 0, 0, 0, 2, 0, 3, 2, 0, 0, 0, 2, 0, 0x28, 0, 8, 0, 0, 0, 0, 0, 0, 0,
    8, 2, 0, 0, 0, 1, 0, 0x50, 0, 0x10, 0, 0, 0, 0, 0, 0, 0, 0, 0, 0, 0, 0, 0, 0, 0, 0, 2, 0, 0, 0,
    0, 0, 0x34, 0, 8, 0, 0, 0, 0, 0, 0, 0, 8,
];

/// LSN 2: slot 3 becomes free.
const FREE: [u8; 39] = [
    0, 0, 0, 0x27, 0, 0, 0, 0, 0, 0, 0, 2, 0, 1, 2, 0, 0, 0, 1, 0, 0x50, 0, 0x10, 0, 0, 0, 0, 0, 0,
    0, 0, 0, 0, 0, 0, 0, 0, 0, 0,
];

/// The group of a plan with LSN 2, as it is spelled.
fn spelled(alloc: Global, plan: Plan) -> Result<Bytes, WantOfMemory>
    requires some { 1 ≤ length plan.records }
    requires most { length plan.records ≤ 65535 }
    requires each { AllByRecursion IsAdmitted plan.records }
{
    let Plan {
        kind: _,
        pages: _,
        made: _,
        records,
    } = plan;
    let mut out = Bytes::new(alloc);
    let group = Group {
        lsn: Lsn::new(2),
        records,
    };
    encode(alloc, &group, &mut out)?;
    Ok(out)
}

/// The begin of the next transaction, as it is spelled, and its number. Nothing where none is left.
fn begun(alloc: Global, next: u64, s: SessionId) -> Result<Option<(u64, Bytes)>, WantOfMemory> {
    let Some(meta) = meta_page(alloc, next, 0)? else {
        return Ok(None);
    };
    let Some(slots) = slots_page(alloc)? else {
        return Ok(None);
    };
    let number = next_number(&meta).number();
    if number < 1 || number > 520_193 {
        return Ok(None);
    }
    match begin_plan(alloc, &meta, &slots, s)? {
        Err(_) => Ok(None),
        Ok((t, plan)) => Ok(Some((t.number(), spelled(alloc, plan)?))),
    }
}

#[test]
fn numbers_end_at_the_last(rt: HostRuntime) -> Result<(), Fail> {
    let session = SessionId::new(5).unwrap();
    let last = begun(rt.alloc(), 520_192, session)?;
    assert_eq!(rt; last.map_or(0, |(t, _)| t), 520_192);
    let none = begun(rt.alloc(), 520_193, session)?;
    assert_eq!(rt; none.is_none(), true);
    Ok(())
}

#[test]
fn begins_are_spelled_so(rt: HostRuntime) -> Result<(), Fail> {
    let (t, bytes) = begun(rt.alloc(), 1, SessionId::new(0).unwrap())?.ok_or("none")?;
    assert_eq!(rt; t, 1);
    assert_eq!(rt; bytes.as_slice(), FIRST.as_slice());
    let (t, bytes) = begun(rt.alloc(), 2, SessionId::new(3).unwrap())?.ok_or("none")?;
    assert_eq!(rt; t, 2);
    assert_eq!(rt; bytes.as_slice(), SECOND.as_slice());
    Ok(())
}

/// The plan that frees slot 3, as it is spelled.
fn freed(alloc: Global) -> Result<Option<Bytes>, WantOfMemory> {
    let Some(slots) = slots_page(alloc)? else {
        return Ok(None);
    };
    let plan = free_plan(alloc, &slots, SessionId::new(3).unwrap())?;
    Ok(Some(spelled(alloc, plan)?))
}

/// Transaction 2 begins in slot 3 over the stamp page, with the last stamp 7, and its commit, as it is
/// spelled.
fn committed(alloc: Global) -> Result<Option<Bytes>, WantOfMemory> {
    let Some(meta) = meta_page(alloc, 2, 7)? else {
        return Ok(None);
    };
    let Some(slots) = slots_with(alloc, 3, 2)? else {
        return Ok(None);
    };
    let Some(stamps) = stamp_page(alloc, 2)? else {
        return Ok(None);
    };
    let session = SessionId::new(3).unwrap();
    if !is_page_of(&stamps, &slots, session) || last_stamp(&meta).number() > 7 {
        return Ok(None);
    }
    let (_, plan) = commit_plan(alloc, &meta, &slots, &stamps, session)?;
    Ok(Some(spelled(alloc, plan)?))
}

#[test]
fn ends_are_spelled_so(rt: HostRuntime) -> Result<(), Fail> {
    let bytes = committed(rt.alloc())?.ok_or("none")?;
    assert_eq!(rt; bytes.as_slice(), COMMIT.as_slice());
    let bytes = freed(rt.alloc())?.ok_or("none")?;
    assert_eq!(rt; bytes.as_slice(), FREE.as_slice());
    Ok(())
}
