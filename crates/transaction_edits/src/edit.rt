//! The begin or the end of a transaction.
ghost use Rattle.std.specs.Prelude.{◌≡◌, IfOk};
ghost use Rattle.question_tree.specs.Questions.{after, told};
ghost use Rattle.transaction_edits.specs.Stages.{work_of};
ghost use Rattle.transaction_edits.specs.Wishes.{Asked, Does, Handed, Ran};
ghost use Rattle.transaction_edits.specs.Works.{begin_work, commit_work, free_work};

use crate::stages::{Stage, act_of, given, run, told_by};
use crate::wishes::{Act, Told};
use page_image::Page;
use rm_base::{SessionId, WantOfMemory};
use std::alloc::Global;
use std::marker::Model;

/// The begin or the end of a session's transaction, as far as it has come. It asks for one page after the
/// other, and then hands out its plan.
#[derive(Drop)]
pub struct TransactionEdit {
    stage: Stage,
}

impl Model for TransactionEdit {
    ghost use Rattle.transaction_edits.specs.declared.stages.Stage.{Stage};
    ghost use Rattle.transaction_edits.specs.Stages.{Stands};

    ghost Value = { Stage };

    ghost view = { λ edit. edit.stage };

    ghost invariant = { λ edit. Stands edit.stage };
}

impl TransactionEdit {
    /// The session's transaction gets its number.
    pub fn begin(session: SessionId) -> TransactionEdit
        ensures { work_of result ≡ begin_work session }
    {
        TransactionEdit {
            stage: Stage::BeginMeta(session),
        }
    }

    /// The session's transaction gets the next stamp, and its slot becomes free.
    pub fn commit(session: SessionId) -> TransactionEdit
        ensures { work_of result ≡ commit_work session }
    {
        TransactionEdit {
            stage: Stage::CommitMeta(session),
        }
    }

    /// The slot of the session becomes free.
    pub fn free(session: SessionId) -> TransactionEdit
        ensures { work_of result ≡ free_work session }
    {
        TransactionEdit {
            stage: Stage::FreeSlots(session),
        }
    }

    /// What is to be done next. None where it was told what became of it, or it cannot go on.
    pub fn next(&self, alloc: Global) -> Result<Option<Act>, WantOfMemory>
        ensures { IfOk result (Does (work_of self.now)) }
    {
        act_of(alloc, &self.stage)
    }

    /// What became of it. None before that is known, and where it cannot go on.
    pub fn told(&self) -> Option<Told>
        ensures { result ≡ told (work_of self.now) }
    {
        told_by(&self.stage)
    }

    /// Takes the page that `next` names.
    pub fn give(self, page: Page) -> TransactionEdit
        requires { Asked (work_of self) (Handed page) }
        ensures { work_of result ≡ after (work_of self) (Handed page) }
    {
        let TransactionEdit { stage } = self;
        TransactionEdit {
            stage: given(stage, page),
        }
    }

    /// Goes on when the plan that `next` named was run.
    pub fn ran(self) -> TransactionEdit
        requires { Asked (work_of self) Ran }
        ensures { work_of result ≡ after (work_of self) Ran }
    {
        let TransactionEdit { stage } = self;
        TransactionEdit { stage: run(stage) }
    }
}
