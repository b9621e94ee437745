//! The undo of a change.
ghost use Rattle.std.specs.Prelude.{◌≡◌, IfOk};
ghost use Rattle.question_tree.specs.Questions.{after, told};
ghost use Rattle.row_edits.specs.BackEdits.{undo_wanted};
ghost use Rattle.row_edits.specs.BackStages.{work_of};
ghost use Rattle.row_edits.specs.Wishes.{Asked, Does, Handed, Ran};

use crate::back_stages::{BackStage, act_of, given, run, told_by};
use crate::wishes::{Act, Taken};
use page_image::Page;
use rm_base::{SessionId, UndoPtr, WantOfMemory};
use std::alloc::Global;
use std::marker::Model;

/// The undo of one change of a session's transaction, as far as it has come. It asks for one page after
/// the other and hands out the plans that are to be run: those of splits, and at the end that of the undo.
#[derive(Drop)]
pub struct BackEdit {
    stage: BackStage,
}

impl Model for BackEdit {
    ghost use Rattle.row_edits.specs.declared.back_stages.BackStage.{BackStage};
    ghost use Rattle.row_edits.specs.BackGrounds.{Stands};

    ghost Value = { BackStage };

    ghost view = { λ edit. edit.stage };

    ghost invariant = { λ edit. Stands edit.stage };
}

impl BackEdit {
    /// The undo of the change whose undo item stands at the place.
    pub fn new(session: SessionId, at: UndoPtr) -> BackEdit
        ensures { work_of result ≡ undo_wanted session at }
    {
        BackEdit {
            stage: BackStage::Looking(session, at),
        }
    }

    /// What is to be done next. None where it was told what became of the undo, or it cannot go on.
    pub fn next(&self, alloc: Global) -> Result<Option<Act>, WantOfMemory>
        ensures { IfOk result (Does (work_of self.now)) }
    {
        act_of(alloc, &self.stage)
    }

    /// What became of the undo. None before that is known, and where it cannot go on.
    pub fn told(&self) -> Option<Taken>
        ensures { result ≡ told (work_of self.now) }
    {
        told_by(&self.stage)
    }

    /// Takes the page that `next` names.
    pub fn give(self, alloc: Global, page: Page) -> Result<BackEdit, WantOfMemory>
        requires { Asked (work_of self) (Handed page) }
        ensures { IfOk result (λ edit. work_of edit ≡ after (work_of self) (Handed page)) }
    {
        let BackEdit { stage } = self;
        Ok(BackEdit {
            stage: given(alloc, stage, page)?,
        })
    }

    /// Goes on when the plan that `next` named was run.
    pub fn ran(self, alloc: Global) -> BackEdit
        requires { Asked (work_of self) Ran }
        ensures { work_of result ≡ after (work_of self) Ran }
    {
        let BackEdit { stage } = self;
        BackEdit {
            stage: run(alloc, stage),
        }
    }
}
