ghost use Rattle.std.specs.Prelude.{◌≡◌, ◌≤◌, ◌<◌, ◌+◌, ◌++◌, ◌^◌, length, OnOk, OnErr, IfOk};
ghost use Rattle.std.specs.List.{AllByRecursion};
ghost use Rattle.rm_base.specs.Fields.{field, AreBytes};
ghost use Rattle.redo_record.specs.Spelling.{counted, record_bytes, records_bytes, group_bytes, FitsPage, IsAdmitted, IsTyped, IsGroup, IsEncodable};

use crate::redo::{
    CUT, GROUP_HEADER_BYTES, Group, INSERT_SLOT, LINK, MAKE, PATCH, REMOVE_SLOT, Record,
};
use rm_base::{Bytes, Items, WantOfMemory, push_u16, push_u32, push_u64};
use std::alloc::Global;

/// Bytes behind their number.
fn push_counted(out: &mut Bytes, bytes: &[u8]) -> Result<(), WantOfMemory>
    requires { FitsPage bytes.now }
    ensures spelled { OnOk result (out.new ≡ out.old ++ counted bytes.now) }
    ensures are_bytes { AreBytes bytes.now }
{
    push_u16(out, bytes.len() as u16)?;
    out.append(bytes)?;
    Ok(())
}

fn push_record(out: &mut Bytes, r: &Record) -> Result<(), WantOfMemory>
    requires { IsAdmitted r.now }
    ensures spelled { OnOk result (out.new ≡ out.old ++ record_bytes r.now) }
    ensures typed { OnOk result (IsTyped r.now) }
{
    match r {
        Record::Make { page, kind, level } => {
            out.push(MAKE)?;
            push_u32(out, page.number())?;
            out.push(kind.number())?;
            out.push(*level)?;
            Ok(())
        }
        Record::Patch { page, at, bytes } => {
            out.push(PATCH)?;
            push_u32(out, page.number())?;
            push_u16(out, *at)?;
            push_counted(out, bytes.as_slice())?;
            Ok(())
        }
        Record::InsertSlot { page, index, bytes } => {
            out.push(INSERT_SLOT)?;
            push_u32(out, page.number())?;
            push_u16(out, *index)?;
            push_counted(out, bytes.as_slice())?;
            Ok(())
        }
        Record::RemoveSlot { page, index } => {
            out.push(REMOVE_SLOT)?;
            push_u32(out, page.number())?;
            push_u16(out, *index)?;
            Ok(())
        }
        Record::Cut { page, from } => {
            out.push(CUT)?;
            push_u32(out, page.number())?;
            push_u16(out, *from)?;
            Ok(())
        }
        Record::Link { page, next } => {
            out.push(LINK)?;
            push_u32(out, page.number())?;
            push_u32(out, *next)?;
            Ok(())
        }
    }
}

/// The records one after the other.
fn records_aside(alloc: Global, records: &[Record]) -> Result<Bytes, WantOfMemory>
    requires { AllByRecursion IsAdmitted records.now }
    ensures spelled { IfOk result (λ out. out ≡ records_bytes records.now) }
    ensures typed { OnOk result (AllByRecursion IsTyped records.now) }
{
    let mut out = Items::new(alloc);
    for r in records {
        push_record(&mut out, r)?;
    }
    Ok(out)
}

/// Appends the group's spelling.
pub fn encode(alloc: Global, g: &Group, out: &mut Bytes) -> Result<(), WantOfMemory>
    requires { IsEncodable g.now }
    ensures spelled { OnOk result (out.new ≡ out.old ++ group_bytes g.now) }
    ensures err { OnErr result (out.new ≡ out.old) }

    // What was spelled is read again, since the fields of any group are of their types.
    ensures is_group { OnOk result (IsGroup g.now) }
{
    let records = records_aside(alloc, g.records.as_slice())?;
    let mut group = Items::new(alloc);
    push_u32(&mut group, (GROUP_HEADER_BYTES + records.len()) as u32)?;
    push_u64(&mut group, g.lsn.number())?;
    push_u16(&mut group, g.records.len() as u16)?;
    group.append(records.as_slice())?;
    out.append(group.as_slice())
}
