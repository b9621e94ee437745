//! How far an undoing has come.
ghost use Rattle.std.specs.Prelude.{◌≡◌, true, IfOk};
ghost use Rattle.question_tree.specs.Questions.{after};
ghost use Rattle.row_edits.specs.BackStages as back;
ghost use Rattle.transaction_edits.specs.Stages as transaction;
ghost use Rattle.statement_work.specs.Acting.{Does, anew};
ghost use Rattle.statement_work.specs.Works.{AskedFor, Handed, Made};
ghost use Rattle.rw_worker.specs.Aims.{writer};
ghost use Rattle.rw_worker.specs.Lifting.{row_over, transaction_over};
ghost use Rattle.rw_worker.specs.Undoing as spec;
ghost use Rattle.rw_worker.specs.UndoStages.{Stands, work_of};

use crate::acting::{back_wants, row_deed, transaction_deed, transaction_wants};
use commit_stamps::{Slot, slot_of};
use page_image::Page;
use rm_base::{SessionId, UndoPtr, WantOfMemory};
use row_edits::{BackEdit, Taken};
use statement_work::{Act, Deed, FixedPage};
use std::alloc::Global;
use transaction_edits::{Told, TransactionEdit};

/// How many changes a transaction has at most: as many as there are places of undo items.
pub const MOST_CHANGES: u32 = 2_147_483_648;

/// The stages of an undoing.
#[derive(Drop)]
pub enum UndoStage {
    /// The session's slot is wanted.
    Looking(SessionId),
    /// A change is undone; there are at most so many before it.
    Back(BackEdit, SessionId, u32),
    /// The slot becomes free.
    Freeing(TransactionEdit),
    Rested,
    /// It begins anew.
    Again(SessionId),
    /// It cannot go on.
    Stopped,
}

/// The change whose undo item stands at the place, or the slot becomes free.
#[tactic(auto, using(crate::proofs::UndoLaws::undone_stops, crate::proofs::UndoLaws::undone_free, crate::proofs::UndoLaws::undone_back, crate::proofs::UndoLaws::back_untold, crate::proofs::WriteLaws::free_untold))]
fn back_from(session: SessionId, left: u32, at: UndoPtr) -> UndoStage
    ensures work { work_of result ≡ spec.undone left session at }
    ensures stands { Stands result }
{
    if left == 0 {
        return UndoStage::Stopped;
    }
    if at.page == 0 {
        return UndoStage::Freeing(TransactionEdit::free(session));
    }
    UndoStage::Back(BackEdit::new(session, at), session, left - 1)
}

/// What follows from what became of an undo.
fn after_undo(taken: Taken, session: SessionId, left: u32) -> UndoStage
    ensures work { work_of result ≡ spec.taken_then session (spec.undone left session) taken }
    ensures stands { Stands result }
{
    match taken {
        Taken::Back(at) => back_from(session, left, at),
        Taken::Again => UndoStage::Again(session),
    }
}

/// An undo, as far as it has come.
#[tactic(auto, using(crate::proofs::LiftLaws::row_ends_calm, crate::proofs::LiftLaws::row_still))]
fn back_on(edit: BackEdit, session: SessionId, left: u32) -> UndoStage
    ensures work { work_of result ≡ row_over true (back.work_of edit) (spec.taken_then session (spec.undone left session)) }
    ensures stands { Stands result }
{
    match edit.told() {
        None => UndoStage::Back(edit, session, left),
        Some(told) => after_undo(told, session, left),
    }
}

/// What follows from what became of the freeing of the slot.
fn freed(told: Told) -> UndoStage
    ensures work { work_of result ≡ spec.freed told }
    ensures stands { Stands result }
{
    match told {
        Told::Freed => UndoStage::Rested,
        Told::Begun(_) => UndoStage::Stopped,
        Told::TrxFull => UndoStage::Stopped,
        Told::Committed(_) => UndoStage::Stopped,
    }
}

/// The freeing of the slot, as far as it has come.
#[tactic(auto, using(crate::proofs::LiftLaws::transaction_ends_calm, crate::proofs::LiftLaws::transaction_still))]
fn free_on(edit: TransactionEdit) -> UndoStage
    ensures work { work_of result ≡ transaction_over true (transaction.work_of edit) spec.freed }
    ensures stands { Stands result }
{
    match edit.told() {
        None => UndoStage::Freeing(edit),
        Some(told) => freed(told),
    }
}

/// A free slot has nothing to undo.
#[tactic(auto, using(crate::proofs::UndoLaws::slot_free, crate::proofs::UndoLaws::slot_taken))]
fn by_slot(session: SessionId, slot: Slot) -> UndoStage
    ensures work { work_of result ≡ spec.undone_by session slot }
    ensures stands { Stands result }
{
    if slot.trx.number() == 0 {
        return UndoStage::Rested;
    }
    back_from(session, MOST_CHANGES, slot.last)
}

/// What the session's slot says.
#[tactic(auto, using(crate::proofs::UndoLaws::slots_are))]
fn looked(session: SessionId, slots: &Page) -> UndoStage
    requires { AskedFor (spec.undoing session) (Handed slots.now) }
    ensures work { work_of result ≡ after (spec.undoing session) (Handed slots.now) }
    ensures stands { Stands result }
{
    by_slot(session, slot_of(slots, session))
}

/// One that told that it begins anew does.
#[tactic(auto, using(crate::proofs::UndoLaws::row_anew, crate::proofs::UndoLaws::transaction_anew))]
fn anewed(stage: UndoStage) -> UndoStage
    requires { Stands stage }
    ensures work { work_of result ≡ anew spec.undoing (work_of stage) }
    ensures stands { Stands result }
{
    match stage {
        UndoStage::Looking(session) => UndoStage::Looking(session),
        UndoStage::Back(edit, session, left) => UndoStage::Back(edit, session, left),
        UndoStage::Freeing(edit) => UndoStage::Freeing(edit),
        UndoStage::Rested => UndoStage::Rested,
        UndoStage::Again(session) => UndoStage::Looking(session),
        UndoStage::Stopped => UndoStage::Stopped,
    }
}

/// Takes the page that is wanted.
#[tactic(auto, using(crate::proofs::LiftLaws::row_asked_calm, crate::proofs::LiftLaws::row_went_calm, crate::proofs::LiftLaws::transaction_asked_calm, crate::proofs::LiftLaws::transaction_went_calm))]
fn stepped(alloc: Global, stage: UndoStage, page: Page) -> Result<UndoStage, WantOfMemory>
    requires stands { Stands stage }
    requires asked { AskedFor (work_of stage) (Handed page) }
    ensures work { IfOk result (λ new. work_of new ≡ after (work_of stage) (Handed page)) }
    ensures stands { IfOk result Stands }
{
    match stage {
        UndoStage::Looking(session) => Ok(looked(session, &page)),
        UndoStage::Back(edit, session, left) => {
            Ok(back_on(edit.give(alloc, page)?, session, left))
        }
        UndoStage::Freeing(edit) => Ok(free_on(edit.give(page))),
        UndoStage::Rested => Ok(UndoStage::Stopped),
        UndoStage::Again(_) => Ok(UndoStage::Stopped),
        UndoStage::Stopped => Ok(UndoStage::Stopped),
    }
}

/// Takes the page that is wanted, and begins anew where that is told.
#[tactic(auto, using(crate::proofs::UndoLaws::anew_same))]
pub(crate) fn given(alloc: Global, stage: UndoStage, page: Page) -> Result<UndoStage, WantOfMemory>
    requires stands { Stands stage }
    requires asked { AskedFor (work_of stage) (Handed page) }
    ensures work { IfOk result (λ new. work_of new ≡ anew spec.undoing (after (work_of stage) (Handed page))) }
    ensures stands { IfOk result Stands }
{
    Ok(anewed(stepped(alloc, stage, page)?))
}

/// Goes on when what was wanted was done.
#[tactic(auto, using(crate::proofs::LiftLaws::row_ran_calm, crate::proofs::LiftLaws::row_goes_on_calm, crate::proofs::LiftLaws::transaction_ran_calm, crate::proofs::LiftLaws::transaction_goes_on_calm))]
fn went_on(alloc: Global, stage: UndoStage) -> UndoStage
    requires stands { Stands stage }
    requires asked { AskedFor (work_of stage) Made }
    ensures work { work_of result ≡ after (work_of stage) Made }
    ensures stands { Stands result }
{
    match stage {
        UndoStage::Looking(_) => UndoStage::Stopped,
        UndoStage::Back(edit, session, left) => back_on(edit.ran(alloc), session, left),
        UndoStage::Freeing(edit) => free_on(edit.ran()),
        UndoStage::Rested => UndoStage::Stopped,
        UndoStage::Again(_) => UndoStage::Stopped,
        UndoStage::Stopped => UndoStage::Stopped,
    }
}

/// Goes on when what was wanted was done, and begins anew where that is told.
#[tactic(auto, using(crate::proofs::UndoLaws::anew_same))]
pub(crate) fn ran(alloc: Global, stage: UndoStage) -> UndoStage
    requires stands { Stands stage }
    requires asked { AskedFor (work_of stage) Made }
    ensures work { work_of result ≡ anew spec.undoing (after (work_of stage) Made) }
    ensures stands { Stands result }
{
    anewed(went_on(alloc, stage))
}

/// What is done next. Where it cannot go on, there is want of memory.
#[tactic(auto, using(crate::proofs::LiftLaws::row_acts_calm, crate::proofs::LiftLaws::transaction_acts_calm))]
pub(crate) fn act_of(alloc: Global, stage: &UndoStage) -> Result<Act, WantOfMemory>
    ensures { IfOk result (Does writer (work_of stage.now)) }
{
    match stage {
        UndoStage::Looking(_) => Ok(Act::Do(Deed::FetchFixed(FixedPage::Slots))),
        UndoStage::Back(edit, _, _) => Ok(Act::Do(row_deed(back_wants(alloc, edit)?))),
        UndoStage::Freeing(edit) => Ok(Act::Do(transaction_deed(transaction_wants(alloc, edit)?))),
        UndoStage::Rested => Ok(Act::Rest),
        UndoStage::Again(_) => Err(WantOfMemory),
        UndoStage::Stopped => Err(WantOfMemory),
    }
}
