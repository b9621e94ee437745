//! What a part of the work wants done, in the words of a worker.
ghost use Rattle.std.specs.Prelude.{◌≡◌, Some, IfOk};
ghost use Rattle.row_edits.specs.BackStages as back;
ghost use Rattle.row_edits.specs.RowStages as row;
ghost use Rattle.row_edits.specs.Wishes as row_wishes;
ghost use Rattle.transaction_edits.specs.Stages as transaction;
ghost use Rattle.transaction_edits.specs.Wishes as transaction_wishes;
ghost use Rattle.rw_worker.specs.Lifting as spec;

use range_reader::Fetch;
use rm_base::WantOfMemory;
use row_edits::{BackEdit, RowEdit};
use statement_work::{Deed, FixedPage};
use std::alloc::Global;
use transaction_edits::TransactionEdit;

fn row_page(fetch: row_edits::Fetch) -> Deed
    ensures { result ≡ spec.row_page fetch }
{
    match fetch {
        row_edits::Fetch::Root(page) => Deed::FetchSure(Fetch::Root(page)),
        row_edits::Fetch::Child(page) => Deed::FetchSure(Fetch::Child(page)),
        row_edits::Fetch::Undo(page) => Deed::FetchSure(Fetch::Undo(page)),
        row_edits::Fetch::Slots => Deed::FetchFixed(FixedPage::Slots),
        row_edits::Fetch::Meta => Deed::FetchFixed(FixedPage::Meta),
    }
}

/// A page, or the plan of a change.
pub(crate) fn row_deed(act: row_edits::Act) -> Deed
    ensures { result ≡ spec.row_deed act }
{
    match act {
        row_edits::Act::Fetch(fetch) => row_page(fetch),
        row_edits::Act::Run(plan) => Deed::Run(plan),
    }
}

/// What a change wants done. One that cannot go on gives want of memory.
#[tactic(auto, using(crate::proofs::LiftLaws::row_wants))]
pub(crate) fn row_wants(alloc: Global, edit: &RowEdit) -> Result<row_edits::Act, WantOfMemory>
    ensures { IfOk result (λ act. row_wishes.Does (row.work_of edit.now) (Some act)) }
{
    match edit.next(alloc)? {
        None => Err(WantOfMemory),
        Some(act) => Ok(act),
    }
}

fn transaction_page(fetch: transaction_edits::Fetch) -> Deed
    ensures { result ≡ spec.transaction_page fetch }
{
    match fetch {
        transaction_edits::Fetch::Meta => Deed::FetchFixed(FixedPage::Meta),
        transaction_edits::Fetch::Slots => Deed::FetchFixed(FixedPage::Slots),
        transaction_edits::Fetch::Stamps(page) => Deed::Fetch(Fetch::Stamps(page)),
    }
}

/// A page, or the plan of a transaction's begin or end.
pub(crate) fn transaction_deed(act: transaction_edits::Act) -> Deed
    ensures { result ≡ spec.transaction_deed act }
{
    match act {
        transaction_edits::Act::Fetch(fetch) => transaction_page(fetch),
        transaction_edits::Act::Run(plan) => Deed::Run(plan),
    }
}

/// What a begin or an end wants done. One that cannot go on gives want of memory.
#[tactic(auto, using(crate::proofs::LiftLaws::transaction_wants))]
pub(crate) fn transaction_wants(
    alloc: Global,
    edit: &TransactionEdit,
) -> Result<transaction_edits::Act, WantOfMemory>
    ensures { IfOk result (λ act. transaction_wishes.Does (transaction.work_of edit.now) (Some act)) }
{
    match edit.next(alloc)? {
        None => Err(WantOfMemory),
        Some(act) => Ok(act),
    }
}

/// What the undo of a change wants done. One that cannot go on gives want of memory.
#[tactic(auto, using(crate::proofs::LiftLaws::row_wants))]
pub(crate) fn back_wants(alloc: Global, edit: &BackEdit) -> Result<row_edits::Act, WantOfMemory>
    ensures { IfOk result (λ act. row_wishes.Does (back.work_of edit.now) (Some act)) }
{
    match edit.next(alloc)? {
        None => Err(WantOfMemory),
        Some(act) => Ok(act),
    }
}
