//! The slots of the sessions: each holds its session's transaction and that one's last undo item.
ghost use Rattle.std.specs.Prelude.{◌≡◌, ◌+◌, ◌*◌, ◌++◌, ◌∷◌, [], OnOk, OnErr};
ghost use Rattle.commit_stamps.specs.Fields as spec;
ghost use Rattle.page_image.specs.Meta.{IsSlots};
ghost use Rattle.commit_stamps.specs.Plans.{points};
ghost use Rattle.commit_stamps.specs.Effects.{Points};

use crate::body::{keeps_rules, u16_in, u32_in, u64_in};
use crate::spelling::pointer_bytes;
use page_image::Page;
use redo_record::{Record, Records};
use rm_base::{SessionId, TrxId, UndoPtr, WantOfMemory};
use std::alloc::Global;

/// The bytes of a slot.
const SLOT_BYTES: usize = 16;

/// A session's slot: its transaction, 0 where it has none, and the transaction's last undo item.
#[derive(Clone, Copy, Debug, PartialEq, Eq)]
pub struct Slot {
    pub trx: TrxId,
    pub last: UndoPtr,
}

/// The slot of a session.
pub fn slot_of(slots: &Page, s: SessionId) -> Slot
    requires { IsSlots slots.now }
    ensures { result ≡ spec.slot_of slots.now s }
{
    let at = SLOT_BYTES * usize::from(s.number());
    Slot {
        trx: TrxId::new(u64_in(slots, at)),
        last: UndoPtr {
            page: u32_in(slots, at + 8),
            slot: u16_in(slots, at + 12),
        },
    }
}

/// Where a session's slot stands in the slots page, from the page's start.
pub(crate) fn slot_at(s: SessionId) -> u16
    ensures { result ≡ 32 + 16 * s }
{
    32 + 16 * u16::from(s.number())
}

/// What the record does. It does nothing when it is run.
fn pointer_changes(slots: &Page, s: SessionId, at: UndoPtr)
    requires { IsSlots slots.now }
    ensures { Points slots.now s at (points slots.now s at ∷ []) }
{
    keeps_rules(slots);
    let _number = s.number();
}

/// Adds the record that gives the session's transaction another last undo item. It changes that slot
/// alone.
pub fn push_pointer(
    alloc: Global,
    records: &mut Records,
    slots: &Page,
    s: SessionId,
    at: UndoPtr,
) -> Result<(), WantOfMemory>
    requires { IsSlots slots.now }
    ensures ok { OnOk result (records.new ≡ records.old ++ points slots.now s at ∷ []) }
    ensures err { OnErr result (records.new ≡ records.old) }
    ensures changes { Points slots.now s at (points slots.now s at ∷ []) }
{
    pointer_changes(slots, s, at);
    let bytes = pointer_bytes(alloc, at)?;
    records.push(Record::Patch {
        page: slots.page(),
        at: 8 + slot_at(s),
        bytes,
    })
}
