//! The changes of a statement.
ghost use Rattle.std.specs.Prelude.{◌≡◌, IfOk};
ghost use Rattle.question_tree.specs.Questions.{after};
ghost use Rattle.statement_work.specs.Acting.{Does};
ghost use Rattle.statement_work.specs.Works.{AskedFor, Handed, Made};
ghost use Rattle.rw_worker.specs.Aims.{writer};
ghost use Rattle.rw_worker.specs.Writing.{AreChanges, writing};
ghost use Rattle.rw_worker.specs.WriteStages.{work_of};

use crate::write_stages::{WriteStage, act_of, all_changes, given, ran};
use crate::writes::Write;
use page_image::Page;
use rm_base::WantOfMemory;
use statement_work::Act;
use std::alloc::Global;
use std::marker::Model;

/// The changes of a statement, as far as they have come: the transaction gets its number where it has none, each
/// change is made in its order, and then the transaction commits, unless it lasts. One page is asked for after the
/// other, and one plan handed out.
#[derive(Drop)]
pub struct WriteEdit {
    stage: WriteStage,
}

impl Model for WriteEdit {
    ghost use Rattle.rw_worker.specs.declared.write_stages.WriteStage.{WriteStage};
    ghost use Rattle.rw_worker.specs.WriteStages.{Stands};

    ghost Value = { WriteStage };

    ghost view = { λ edit. edit.stage };

    ghost invariant = { λ edit. Stands edit.stage };
}

impl WriteEdit {
    /// The changes from their begin on. It takes no memory.
    pub fn new(alloc: Global, changes: Write) -> WriteEdit
        requires { AreChanges changes.changes.items }
        ensures { work_of result ≡ writing changes }
    {
        WriteEdit {
            stage: all_changes(alloc, changes),
        }
    }

    /// What is to be done next, and at the end what is replied. Want of memory too where the changes cannot go on.
    pub fn next(&self, alloc: Global) -> Result<Act, WantOfMemory>
        ensures { IfOk result (Does writer (work_of self.now)) }
    {
        act_of(alloc, &self.stage)
    }

    /// Takes the page that `next` names.
    pub fn give(self, alloc: Global, page: Page) -> Result<WriteEdit, WantOfMemory>
        requires { AskedFor (work_of self) (Handed page) }
        ensures { IfOk result (λ edit. work_of edit ≡ after (work_of self) (Handed page)) }
    {
        let WriteEdit { stage } = self;
        Ok(WriteEdit {
            stage: given(alloc, stage, page)?,
        })
    }

    /// Goes on when what `next` named was done.
    pub fn ran(self, alloc: Global) -> WriteEdit
        requires { AskedFor (work_of self) Made }
        ensures { work_of result ≡ after (work_of self) Made }
    {
        let WriteEdit { stage } = self;
        WriteEdit {
            stage: ran(alloc, stage),
        }
    }
}
