//! The plans that begin a transaction and end it.
ghost use Rattle.std.specs.Prelude.{◌≡◌, ◌≢◌, ◌≤◌, ◌<◌, ◌+◌, ◌*◌, ◌^◌, ◌↔◌, length, ◌++◌, ◌∷◌, [], IfOk, IsErr, OnOk};
ghost use Rattle.commit_stamps.specs.Fields.{free_slot};
ghost use Rattle.commit_stamps.specs.Fields as fields;
ghost use Rattle.commit_stamps.specs.Stamping.{IsStampPage};
ghost use Rattle.commit_stamps.specs.Stamping as stamping;
ghost use Rattle.commit_stamps.specs.Plans as spec;
ghost use Rattle.rm_base.specs.Fields.{field};
ghost use Rattle.page_image.specs.Meta.{IsMeta, IsSlots, counters_of};
ghost use Rattle.commit_stamps.specs.Effects.{Begins, Commits, Frees};

use crate::body::keeps_rules;
use crate::counters::{last_stamp, next_number};
use crate::slots::{Slot, slot_at, slot_of};
use crate::spelling::{number_bytes, slot_bytes};
use crate::stamps::{stamp_page, stamp_place};
use page_image::{Kind, Page};
use redo_record::{Plan, PlanKind, Record, Records};
use rm_base::{MAX_TRX_ID, PageId, PageList, SessionId, Stamp, TrxId, UndoPtr, WantOfMemory};
use std::alloc::Global;
use thiserror::Error;

/// Each number of a transaction is given.
#[derive(Clone, Copy, Debug, PartialEq, Eq, Error)]
#[error("no number is left for a transaction")]
pub struct TrxFull;

/// The pages that the begin of a transaction makes.
fn made_for(t: TrxId) -> PageList
    requires number { (1 ≤ t) × (t ≤ MAX_TRX_ID) }
    ensures pages { result ≡ spec.made_for t }
    ensures few { length result ≤ 1 }
{
    let mut made = PageList::new();
    if stamp_place(t) == 0 {
        made.try_push(page_of(t)).unwrap();
    }
    made
}

/// The page of the transaction's stamp.
fn page_of(t: TrxId) -> PageId
    requires number { (1 ≤ t) × (t ≤ MAX_TRX_ID) }
    ensures { result ≡ stamping.stamp_page t }
{
    PageId::new(stamp_page(t) as u32).unwrap()
}

/// The records that make them.
fn makes_for(alloc: Global, t: TrxId) -> Result<Records, WantOfMemory>
    requires number { (1 ≤ t) × (t ≤ MAX_TRX_ID) }
    ensures { IfOk result (λ records. records ≡ spec.makes_for t) }
{
    let mut records = Records::new(alloc);
    if stamp_place(t) == 0 {
        records.push(Record::Make {
            page: page_of(t),
            kind: Kind::Stamps,
            level: 0,
        })?;
    }
    Ok(records)
}

/// Adds the record that writes a session's slot anew.
fn push_slot(
    alloc: Global,
    records: &mut Records,
    slots: &Page,
    s: SessionId,
    slot: Slot,
) -> Result<(), WantOfMemory>
    ensures { OnOk result (records.new ≡ records.old ++ spec.fills slots.now s slot ∷ []) }
{
    let bytes = slot_bytes(alloc, slot)?;
    records.push(Record::Patch {
        page: slots.page(),
        at: slot_at(s),
        bytes,
    })
}

/// Adds the record that writes a number of 8 bytes.
fn push_number(
    alloc: Global,
    records: &mut Records,
    page: PageId,
    at: u16,
    v: u64,
) -> Result<(), WantOfMemory>
    ensures { OnOk result (records.new ≡ records.old ++ Record.Patch page at (field 8 v) ∷ []) }
{
    let bytes = number_bytes(alloc, v)?;
    records.push(Record::Patch { page, at, bytes })
}

/// The slot of a session without a transaction.
fn free_slot() -> Slot
    ensures { result ≡ free_slot }
{
    slot_with(TrxId::new(0))
}

/// The slot of a transaction without an undo item.
fn slot_with(trx: TrxId) -> Slot
    ensures { result ≡ record { trx = trx; last = fields.no_undo } }
{
    Slot {
        trx,
        last: UndoPtr { page: 0, slot: 0 },
    }
}

/// The plan that gives the number t, in the session's slot.
fn begin_with(
    alloc: Global,
    meta: &Page,
    slots: &Page,
    s: SessionId,
    t: TrxId,
) -> Result<Plan, WantOfMemory>
    requires number { (1 ≤ t) × (t ≤ MAX_TRX_ID) }
    ensures { IfOk result (λ plan. plan ≡ spec.begin_plan meta.now slots.now s t) }
{
    let mut pages = made_for(t);
    pages.try_push(slots.page()).unwrap();
    pages.try_push(meta.page()).unwrap();
    let mut records = makes_for(alloc, t)?;
    push_slot(alloc, &mut records, slots, s, slot_with(t))?;
    push_number(alloc, &mut records, meta.page(), 44, t.number() + 1)?;
    Ok(Plan {
        kind: PlanKind::Begin(t),
        pages,
        made: made_for(t),
        records,
    })
}

/// What its records do. It does nothing when it is run.
fn begin_changes(meta: &Page, slots: &Page, s: SessionId, t: TrxId)
    requires meta { IsMeta meta.now }
    requires slots { IsSlots slots.now }
    requires few { t ≤ MAX_TRX_ID }
    ensures { Begins meta.now slots.now s t (spec.begin_records meta.now slots.now s t) }
{
    keeps_rules(meta);
    keeps_rules(slots);
    let _number = s.number();
}

/// The next number, and the plan that gives it to a transaction in the session's slot. TrxFull exactly
/// where each number is given.

pub fn begin_plan(
    alloc: Global,
    meta: &Page,
    slots: &Page,
    s: SessionId,
) -> Result<Result<(TrxId, Plan), TrxFull>, WantOfMemory>
    requires meta { IsMeta meta.now }
    requires slots { IsSlots slots.now }
    requires some { 1 ≤ (counters_of meta.now).next }
    requires most { (counters_of meta.now).next ≤ MAX_TRX_ID + 1 }
    ensures full { IfOk result (λ answer.
        IsErr answer ↔ ((counters_of meta.now).next ≡ MAX_TRX_ID + 1)) }
    ensures number { IfOk result (λ answer. IfOk answer (λ begun.
        begun.0 ≡ (counters_of meta.now).next)) }
    ensures plan { IfOk result (λ answer. IfOk answer (λ begun.
        begun.1 ≡ spec.begin_plan meta.now slots.now s begun.0)) }
    ensures begins { IfOk result (λ answer. IfOk answer (λ begun.
        Begins meta.now slots.now s begun.0 begun.1.records)) }
{
    let t = next_number(meta);
    if t.number() > MAX_TRX_ID {
        return Ok(Err(TrxFull));
    }
    begin_changes(meta, slots, s, t);
    let plan = begin_with(alloc, meta, slots, s, t)?;
    Ok(Ok((t, plan)))
}

/// The plan that gives the stamp to the session's transaction and frees the session's slot.
fn commit_with(
    alloc: Global,
    meta: &Page,
    slots: &Page,
    stamps: &Page,
    s: SessionId,
    stamp: u64,
) -> Result<Plan, WantOfMemory>
    requires slots { IsSlots slots.now }
    requires some { 1 ≤ (fields.slot_of slots.now s).trx }
    requires stamp { stamp ≡ (counters_of meta.now).last + 1 }
    ensures { IfOk result (λ plan. plan ≡ spec.commit_plan meta.now slots.now stamps.now s) }
{
    let t = slot_of(slots, s).trx;
    let mut records = Records::new(alloc);
    push_number(alloc, &mut records, stamps.page(), stamp_at(t), stamp)?;
    push_slot(alloc, &mut records, slots, s, free_slot())?;
    push_number(alloc, &mut records, meta.page(), 52, stamp)?;
    Ok(Plan {
        kind: PlanKind::Commit,
        pages: commit_pages(meta, slots, stamps),
        made: PageList::new(),
        records,
    })
}

/// What its records do. It does nothing when it is run.
#[tactic(auto, using(crate::proofs::CommitLaws::commits))]
fn commit_changes(meta: &Page, slots: &Page, stamps: &Page, s: SessionId)
    requires meta { IsMeta meta.now }
    requires slots { IsSlots slots.now }
    requires stamps { IsStampPage stamps.now (fields.slot_of slots.now s).trx }
    requires room { (counters_of meta.now).last + 1 < 2 ^ 64 }
    ensures { Commits meta.now slots.now stamps.now s
        (spec.commit_records meta.now slots.now stamps.now s) }
{
    keeps_rules(meta);
    keeps_rules(slots);
    keeps_rules(stamps);
    let _number = s.number();
}

/// The stamp after the last one, and the plan that gives it to the session's transaction and frees the
/// session's slot.
pub fn commit_plan(
    alloc: Global,
    meta: &Page,
    slots: &Page,
    stamps: &Page,
    s: SessionId,
) -> Result<(Stamp, Plan), WantOfMemory>
    requires meta { IsMeta meta.now }
    requires slots { IsSlots slots.now }
    requires stamps { IsStampPage stamps.now (fields.slot_of slots.now s).trx }
    requires room { (counters_of meta.now).last + 1 < 2 ^ 64 }
    ensures stamp { IfOk result (λ made. made.0 ≡ (counters_of meta.now).last + 1) }
    ensures plan { IfOk result (λ made. made.1 ≡ spec.commit_plan meta.now slots.now stamps.now s) }
    ensures commits { IfOk result (λ made. Commits meta.now slots.now stamps.now s made.1.records) }
{
    commit_changes(meta, slots, stamps, s);
    let stamp = last_stamp(meta).number() + 1;
    let plan = commit_with(alloc, meta, slots, stamps, s, stamp)?;
    Ok((Stamp::new(stamp), plan))
}

/// The pages of a commit's plan.
fn commit_pages(meta: &Page, slots: &Page, stamps: &Page) -> PageList
    ensures { result ≡ stamps.now.page ∷ slots.now.page ∷ meta.now.page ∷ [] }
{
    let mut pages = PageList::new();
    pages.try_push(stamps.page()).unwrap();
    pages.try_push(slots.page()).unwrap();
    pages.try_push(meta.page()).unwrap();
    pages
}

/// Where a transaction's stamp stands in its page, from the page's start.
fn stamp_at(t: TrxId) -> u16
    requires { 1 ≤ t }
    ensures { result ≡ 32 + 8 * stamping.stamp_place t }
{
    32 + 8 * stamp_place(t) as u16
}

/// The plan of `free_plan`.
fn free_with(alloc: Global, slots: &Page, s: SessionId) -> Result<Plan, WantOfMemory>
    ensures { IfOk result (λ plan. plan ≡ spec.free_plan slots.now s) }
{
    let mut records = Records::new(alloc);
    push_slot(alloc, &mut records, slots, s, free_slot())?;
    let mut pages = PageList::new();
    pages.try_push(slots.page()).unwrap();
    Ok(Plan {
        kind: PlanKind::Free,
        pages,
        made: PageList::new(),
        records,
    })
}

/// What its records do. It does nothing when it is run.
fn free_changes(slots: &Page, s: SessionId)
    requires { IsSlots slots.now }
    ensures { Frees slots.now s (spec.free_records slots.now s) }
{
    keeps_rules(slots);
    let _number = s.number();
}

/// The plan that frees the session's slot.
pub fn free_plan(alloc: Global, slots: &Page, s: SessionId) -> Result<Plan, WantOfMemory>
    requires { IsSlots slots.now }
    ensures plan { IfOk result (λ plan. plan ≡ spec.free_plan slots.now s) }
    ensures frees { IfOk result (λ plan. Frees slots.now s plan.records) }
{
    free_changes(slots, s);
    free_with(alloc, slots, s)
}
