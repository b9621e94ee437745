//! The change of a row.
ghost use Rattle.std.specs.Prelude.{◌≡◌, IfOk};
ghost use Rattle.row_edits.specs.RowPlans.{IsChange};
ghost use Rattle.question_tree.specs.Questions.{after, told};
ghost use Rattle.row_edits.specs.RowEdits.{row_work};
ghost use Rattle.row_edits.specs.RowStages.{work_of};
ghost use Rattle.row_edits.specs.Wishes.{Asked, Does, Handed, Ran};

use crate::changes::RowChange;
use crate::row_stages::{MOST_SPLITS, RowStage, act_of, begin, given, run, told_by};
use crate::wishes::{Act, Edited};
use page_image::Page;
use rm_base::WantOfMemory;
use std::alloc::Global;
use std::marker::Model;

/// The change of a row, as far as it has come. It asks for one page after the other and hands out the
/// plans that are to be run: those of splits, and at the end that of the change.
#[derive(Drop)]
pub struct RowEdit {
    stage: RowStage,
}

impl Model for RowEdit {
    ghost use Rattle.row_edits.specs.declared.row_stages.RowStage.{RowStage};
    ghost use Rattle.row_edits.specs.RowGrounds.{Stands};

    ghost Value = { RowStage };

    ghost view = { λ edit. edit.stage };

    ghost invariant = { λ edit. Stands edit.stage };
}

impl RowEdit {
    /// The change from its first page on. It takes no memory.
    #[tactic(auto, unfolding(crate::specs::RowEdits::row_work))]
    pub fn new(alloc: Global, change: RowChange) -> RowEdit
        requires { IsChange change }
        ensures { work_of result ≡ row_work change }
    {
        RowEdit {
            stage: begin(alloc, MOST_SPLITS, change),
        }
    }

    /// What is to be done next. None where it was told what became of the change, or it cannot go on.
    pub fn next(&self, alloc: Global) -> Result<Option<Act>, WantOfMemory>
        ensures { IfOk result (Does (work_of self.now)) }
    {
        act_of(alloc, &self.stage)
    }

    /// What became of the change. None before that is known, and where it cannot go on.
    pub fn told(&self) -> Option<Edited>
        ensures { result ≡ told (work_of self.now) }
    {
        told_by(&self.stage)
    }

    /// Takes the page that `next` names.
    pub fn give(self, alloc: Global, page: Page) -> Result<RowEdit, WantOfMemory>
        requires { Asked (work_of self) (Handed page) }
        ensures { IfOk result (λ edit. work_of edit ≡ after (work_of self) (Handed page)) }
    {
        let RowEdit { stage } = self;
        Ok(RowEdit {
            stage: given(alloc, stage, page)?,
        })
    }

    /// Goes on when the plan that `next` named was run.
    pub fn ran(self, alloc: Global) -> RowEdit
        requires { Asked (work_of self) Ran }
        ensures { work_of result ≡ after (work_of self) Ran }
    {
        let RowEdit { stage } = self;
        RowEdit {
            stage: run(alloc, stage),
        }
    }
}
