//! How far a statement's changes have come.
ghost use Rattle.std.specs.Prelude.{◌≡◌, ◌∷◌, false, IfOk};
ghost use Rattle.question_tree.specs.Questions.{after};
ghost use Rattle.row_edits.specs.RowPlans.{IsChange};
ghost use Rattle.row_edits.specs.RowStages as row;
ghost use Rattle.transaction_edits.specs.Stages as transaction;
ghost use Rattle.statement_work.specs.Acting.{Does};
ghost use Rattle.statement_work.specs.Works.{AskedFor, Handed, Made};
ghost use Rattle.rw_worker.specs.Aims.{writer};
ghost use Rattle.rw_worker.specs.Lifting.{row_over, transaction_over};
ghost use Rattle.rw_worker.specs.Writing as spec;
ghost use Rattle.rw_worker.specs.Writing.{AreChanges};
ghost use Rattle.rw_worker.specs.WriteStages.{Stands, to_do, with_first, work_of};

use crate::acting::{row_deed, row_wants, transaction_deed, transaction_wants};
use crate::writes::{Todo, Write, WriteEnd};
use page_image::Page;
use rm_base::{SessionId, TrxId, WantOfMemory};
use row_edits::{Edited, RowChange, RowEdit};
use statement_work::{Act, Deed};
use std::alloc::Global;
use transaction_edits::{Told, TransactionEdit};

/// The stages of a statement's changes.
#[derive(Drop)]
pub enum WriteStage {
    /// The transaction gets its number; the first change, and those behind it, are to be made.
    Beginning(TransactionEdit, RowChange, Todo),
    /// A change is made, in the transaction with this number.
    Editing(RowEdit, TrxId, Todo),
    /// The transaction commits.
    Committing(TransactionEdit, u64),
    /// The log is appended.
    Appending(u64),
    Told(WriteEnd),
    /// It cannot go on.
    Stopped,
}

/// A change of the transaction with this number.
#[tactic(auto, using(crate::proofs::WriteLaws::numbered_is))]
fn numbered(change: RowChange, trx: TrxId) -> RowChange
    requires { IsChange change }
    ensures change { result ≡ spec.numbered trx change }
    ensures is { IsChange result }
{
    let _number = trx.number();
    let mut change = change;
    change.item.trx = trx;
    change
}

/// Begins a change.
#[tactic(auto, using(crate::proofs::WriteLaws::row_untold, crate::proofs::WriteLaws::changing_first))]
fn begin_change(alloc: Global, change: RowChange, trx: TrxId, todo: Todo) -> WriteStage
    requires change { IsChange change }
    requires others { AreChanges todo.changes.items }
    ensures work { work_of result ≡ with_first change todo trx }
    ensures stands { Stands result }
{
    WriteStage::Editing(RowEdit::new(alloc, numbered(change, trx)), trx, todo)
}

/// Behind the last change.
#[tactic(auto, using(crate::proofs::LiftLaws::transaction_same, crate::proofs::WriteLaws::commit_untold))]
fn end(session: SessionId, lasting: bool, rows: u64) -> WriteStage
    ensures work { work_of result ≡ spec.ends lasting session rows }
    ensures stands { Stands result }
{
    if lasting {
        WriteStage::Told(WriteEnd::Made(rows))
    } else {
        WriteStage::Committing(TransactionEdit::commit(session), rows)
    }
}

/// The next change, or the end.
#[tactic(auto, using(crate::proofs::WriteLaws::changing_none, crate::proofs::WriteLaws::changing_next, crate::proofs::WriteLaws::first_is, crate::proofs::WriteLaws::others_are))]
fn next_change(alloc: Global, trx: TrxId, todo: Todo) -> WriteStage
    requires { AreChanges todo.changes.items }
    ensures work { work_of result ≡ to_do todo trx }
    ensures stands { Stands result }
{
    let mut todo = todo;
    match todo.changes.pop_front() {
        None => end(todo.session, todo.lasting, todo.rows),
        Some(first) => begin_change(alloc, first, trx, todo),
    }
}

/// What follows from what became of a change.
fn after_change(alloc: Global, edited: Edited, trx: TrxId, todo: Todo) -> WriteStage
    requires { AreChanges todo.changes.items }
    ensures work { work_of result ≡ spec.edited_then (to_do todo trx) edited }
    ensures stands { Stands result }
{
    match edited {
        Edited::Made => next_change(alloc, trx, todo),
        Edited::SpaceFull => WriteStage::Told(WriteEnd::SpaceFull),
    }
}

/// A change, as far as it has come.
#[tactic(auto, using(crate::proofs::LiftLaws::row_ends, crate::proofs::LiftLaws::row_still))]
fn row_on(alloc: Global, edit: RowEdit, trx: TrxId, todo: Todo) -> WriteStage
    requires { AreChanges todo.changes.items }
    ensures work { work_of result ≡ row_over false (row.work_of edit) (spec.edited_then (to_do todo trx)) }
    ensures stands { Stands result }
{
    match edit.told() {
        None => WriteStage::Editing(edit, trx, todo),
        Some(told) => after_change(alloc, told, trx, todo),
    }
}

/// What follows from what became of a begin.
fn begun(alloc: Global, told: Told, first: RowChange, todo: Todo) -> WriteStage
    requires change { IsChange first }
    requires others { AreChanges todo.changes.items }
    ensures work { work_of result ≡ spec.begun_then (with_first first todo) told }
    ensures stands { Stands result }
{
    match told {
        Told::Begun(trx) => begin_change(alloc, first, trx, todo),
        Told::TrxFull => WriteStage::Told(WriteEnd::TrxFull),
        Told::Committed(_) => WriteStage::Stopped,
        Told::Freed => WriteStage::Stopped,
    }
}

/// A begin, as far as it has come.
#[tactic(auto, using(crate::proofs::LiftLaws::transaction_ends, crate::proofs::LiftLaws::transaction_still))]
fn begin_on(alloc: Global, edit: TransactionEdit, first: RowChange, todo: Todo) -> WriteStage
    requires change { IsChange first }
    requires others { AreChanges todo.changes.items }
    ensures work { work_of result ≡ transaction_over false (transaction.work_of edit) (spec.begun_then (with_first first todo)) }
    ensures stands { Stands result }
{
    match edit.told() {
        None => WriteStage::Beginning(edit, first, todo),
        Some(told) => begun(alloc, told, first, todo),
    }
}

/// What follows from what became of a commit.
fn committed(told: Told, rows: u64) -> WriteStage
    ensures work { work_of result ≡ spec.committed rows told }
    ensures stands { Stands result }
{
    match told {
        Told::Committed(_) => WriteStage::Appending(rows),
        Told::Begun(_) => WriteStage::Stopped,
        Told::TrxFull => WriteStage::Stopped,
        Told::Freed => WriteStage::Stopped,
    }
}

/// A commit, as far as it has come.
#[tactic(auto, using(crate::proofs::LiftLaws::transaction_ends, crate::proofs::LiftLaws::transaction_still))]
fn commit_on(edit: TransactionEdit, rows: u64) -> WriteStage
    ensures work { work_of result ≡ transaction_over false (transaction.work_of edit) (spec.committed rows) }
    ensures stands { Stands result }
{
    match edit.told() {
        None => WriteStage::Committing(edit, rows),
        Some(told) => committed(told, rows),
    }
}

/// A transaction without a number begins first.
#[tactic(auto, using(crate::proofs::LiftLaws::transaction_same, crate::proofs::WriteLaws::begin_untold))]
fn with_number(alloc: Global, number: Option<TrxId>, first: RowChange, todo: Todo) -> WriteStage
    requires change { IsChange first }
    requires others { AreChanges todo.changes.items }
    ensures work { work_of result ≡ spec.writing_of number todo.lasting todo.session todo.rows (first ∷ todo.changes.items) }
    ensures stands { Stands result }
{
    match number {
        Some(trx) => begin_change(alloc, first, trx, todo),
        None => WriteStage::Beginning(TransactionEdit::begin(todo.session), first, todo),
    }
}

/// All the changes of a statement.
#[tactic(auto, using(crate::proofs::WriteLaws::writing_none, crate::proofs::WriteLaws::writing_first, crate::proofs::WriteLaws::first_is, crate::proofs::WriteLaws::others_are))]
pub(crate) fn all_changes(alloc: Global, write: Write) -> WriteStage
    requires { AreChanges write.changes.items }
    ensures work { work_of result ≡ spec.writing write }
    ensures stands { Stands result }
{
    let Write {
        session,
        number: trx,
        lasting,
        rows,
        mut changes,
    } = write;
    match changes.pop_front() {
        None => WriteStage::Told(WriteEnd::Made(rows)),
        Some(first) => with_number(
            alloc,
            trx,
            first,
            Todo {
                session,
                lasting,
                rows,
                changes,
            },
        ),
    }
}

/// Takes the page that is wanted.
#[tactic(auto, using(crate::proofs::LiftLaws::row_asked, crate::proofs::LiftLaws::row_went, crate::proofs::LiftLaws::transaction_asked, crate::proofs::LiftLaws::transaction_went))]
pub(crate) fn given(
    alloc: Global,
    stage: WriteStage,
    page: Page,
) -> Result<WriteStage, WantOfMemory>
    requires stands { Stands stage }
    requires asked { AskedFor (work_of stage) (Handed page) }
    ensures work { IfOk result (λ new. work_of new ≡ after (work_of stage) (Handed page)) }
    ensures stands { IfOk result Stands }
{
    match stage {
        WriteStage::Beginning(edit, first, todo) => {
            Ok(begin_on(alloc, edit.give(page), first, todo))
        }
        WriteStage::Editing(edit, trx, todo) => {
            Ok(row_on(alloc, edit.give(alloc, page)?, trx, todo))
        }
        WriteStage::Committing(edit, rows) => Ok(commit_on(edit.give(page), rows)),
        WriteStage::Appending(_) => Ok(WriteStage::Stopped),
        WriteStage::Told(_) => Ok(WriteStage::Stopped),
        WriteStage::Stopped => Ok(WriteStage::Stopped),
    }
}

/// Goes on when what was wanted was done.
#[tactic(auto, using(crate::proofs::LiftLaws::row_ran, crate::proofs::LiftLaws::row_goes_on, crate::proofs::LiftLaws::transaction_ran, crate::proofs::LiftLaws::transaction_goes_on))]
pub(crate) fn ran(alloc: Global, stage: WriteStage) -> WriteStage
    requires stands { Stands stage }
    requires asked { AskedFor (work_of stage) Made }
    ensures work { work_of result ≡ after (work_of stage) Made }
    ensures stands { Stands result }
{
    match stage {
        WriteStage::Beginning(edit, first, todo) => begin_on(alloc, edit.ran(), first, todo),
        WriteStage::Editing(edit, trx, todo) => row_on(alloc, edit.ran(alloc), trx, todo),
        WriteStage::Committing(edit, rows) => commit_on(edit.ran(), rows),
        WriteStage::Appending(rows) => WriteStage::Told(WriteEnd::Made(rows)),
        WriteStage::Told(_) => WriteStage::Stopped,
        WriteStage::Stopped => WriteStage::Stopped,
    }
}

/// What is done next. Where it cannot go on, there is want of memory.
#[tactic(auto, using(crate::proofs::LiftLaws::row_acts, crate::proofs::LiftLaws::transaction_acts))]
pub(crate) fn act_of(alloc: Global, stage: &WriteStage) -> Result<Act, WantOfMemory>
    ensures { IfOk result (Does writer (work_of stage.now)) }
{
    match stage {
        WriteStage::Beginning(edit, _, _) => {
            Ok(Act::Do(transaction_deed(transaction_wants(alloc, edit)?)))
        }
        WriteStage::Editing(edit, _, _) => Ok(Act::Do(row_deed(row_wants(alloc, edit)?))),
        WriteStage::Committing(edit, _) => {
            Ok(Act::Do(transaction_deed(transaction_wants(alloc, edit)?)))
        }
        WriteStage::Appending(_) => Ok(Act::Do(Deed::Append)),
        WriteStage::Told(end) => Ok(Act::Reply(end.reply())),
        WriteStage::Stopped => Err(WantOfMemory),
    }
}
