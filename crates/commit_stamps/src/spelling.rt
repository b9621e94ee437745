//! The bytes that plans put into pages.
ghost use Rattle.std.specs.Prelude.{◌≡◌, IfOk};
ghost use Rattle.rm_base.specs.Fields.{field};
ghost use Rattle.commit_stamps.specs.Fields as spec;

use crate::slots::Slot;
use rm_base::{Bytes, UndoPtr, WantOfMemory, push_u16, push_u32, push_u64};
use std::alloc::Global;

/// The 8 bytes of a number.
pub(crate) fn number_bytes(alloc: Global, v: u64) -> Result<Bytes, WantOfMemory>
    ensures { IfOk result (λ bytes. bytes ≡ field 8 v) }
{
    let mut out = Bytes::new(alloc);
    push_u64(&mut out, v)?;
    Ok(out)
}

/// The 6 bytes of the place of an undo item.
pub(crate) fn pointer_bytes(alloc: Global, at: UndoPtr) -> Result<Bytes, WantOfMemory>
    ensures { IfOk result (λ bytes. bytes ≡ spec.pointer_bytes at) }
{
    let mut out = Bytes::new(alloc);
    push_u32(&mut out, at.page)?;
    push_u16(&mut out, at.slot)?;
    Ok(out)
}

/// The 16 bytes of a slot.
pub(crate) fn slot_bytes(alloc: Global, slot: Slot) -> Result<Bytes, WantOfMemory>
    ensures { IfOk result (λ bytes. bytes ≡ spec.slot_bytes slot) }
{
    let mut out = Bytes::new(alloc);
    push_u64(&mut out, slot.trx.number())?;
    push_u32(&mut out, slot.last.page)?;
    push_u16(&mut out, slot.last.slot)?;
    push_u16(&mut out, 0)?;
    Ok(out)
}
