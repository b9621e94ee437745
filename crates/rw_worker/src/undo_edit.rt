//! The undoing of a session's ended transaction.
ghost use Rattle.std.specs.Prelude.{◌≡◌, IfOk};
ghost use Rattle.question_tree.specs.Questions.{after};
ghost use Rattle.statement_work.specs.Acting.{Does, anew};
ghost use Rattle.statement_work.specs.Works.{AskedFor, Handed, Made};
ghost use Rattle.rw_worker.specs.Aims.{writer};
ghost use Rattle.rw_worker.specs.Undoing.{undoing};
ghost use Rattle.rw_worker.specs.UndoStages.{work_of};

use crate::undo_stages::{UndoStage, act_of, given, ran};
use page_image::Page;
use rm_base::{SessionId, WantOfMemory};
use statement_work::Act;
use std::alloc::Global;
use std::marker::Model;

/// The undoing of a session's ended transaction, as far as it has come: each of its changes is undone, newest
/// first, and then its slot becomes free. One page is asked for after the other, and one plan handed out.
#[derive(Drop)]
pub struct UndoEdit {
    stage: UndoStage,
}

impl Model for UndoEdit {
    ghost use Rattle.rw_worker.specs.declared.undo_stages.UndoStage.{UndoStage};
    ghost use Rattle.rw_worker.specs.UndoStages.{Stands};

    ghost Value = { UndoStage };

    ghost view = { λ edit. edit.stage };

    ghost invariant = { λ edit. Stands edit.stage };
}

impl UndoEdit {
    /// The undoing from its begin on.
    pub fn new(session: SessionId) -> UndoEdit
        ensures { work_of result ≡ undoing session }
    {
        UndoEdit {
            stage: UndoStage::Looking(session),
        }
    }

    /// What is to be done next, and a rest at the end. Want of memory too where the undoing cannot go on.
    pub fn next(&self, alloc: Global) -> Result<Act, WantOfMemory>
        ensures { IfOk result (Does writer (work_of self.now)) }
    {
        act_of(alloc, &self.stage)
    }

    /// Takes the page that `next` names.
    pub fn give(self, alloc: Global, page: Page) -> Result<UndoEdit, WantOfMemory>
        requires { AskedFor (work_of self) (Handed page) }
        ensures { IfOk result (λ edit. work_of edit ≡ anew undoing (after (work_of self) (Handed page))) }
    {
        let UndoEdit { stage } = self;
        Ok(UndoEdit {
            stage: given(alloc, stage, page)?,
        })
    }

    /// Goes on when what `next` named was done.
    pub fn ran(self, alloc: Global) -> UndoEdit
        requires { AskedFor (work_of self) Made }
        ensures { work_of result ≡ anew undoing (after (work_of self) Made) }
    {
        let UndoEdit { stage } = self;
        UndoEdit {
            stage: ran(alloc, stage),
        }
    }
}
