//! The worker.
ghost use Rattle.std.specs.Prelude.{◌≡◌, true};
ghost use Rattle.question_tree.specs.Questions.{stops};
ghost use Rattle.ro_worker.specs.Serving.{ro_finds, ro_serves, ro_undoes};
ghost use Rattle.ro_worker.specs.Wishes.{reads_only};
ghost use Rattle.ro_worker.specs.States.{work_of};
ghost use Rattle.ro_worker.specs.WorkerLaws.{ro_ends, ro_polite, ro_polite_undoing, ro_right};

use crate::turns::{State, Turn, give_up, told};
use rm_base::WantOfMemory;
use statement_work::{Act, Given, Worker};
use std::alloc::Global;
use std::mem;

/// Serves the statements of a node that only reads, one at a time.
#[derive(Drop)]
pub struct RoWorker {
    state: State,
}

impl RoWorker {
    /// It serves nothing yet.
    pub fn new() -> RoWorker
        ensures { work_of result ≡ stops }
    {
        RoWorker { state: State::Idle }
    }
}

impl Worker for RoWorker {
    ghost terms = { reads_only };

    ghost work = { work_of };

    ghost serves = { ro_serves };

    ghost undoes = { ro_undoes };

    ghost finds = { ro_finds };

    ghost latches = { true };

    #[tactic(auto, using(crate::proofs::TurnLaws::does_deed, crate::proofs::TurnLaws::works_goes, crate::proofs::TurnLaws::replied_goes, crate::proofs::TurnLaws::rested_goes))]
    fn next(&mut self, alloc: Global, given: Given<'_>) -> Result<Act, WantOfMemory> {
        let state = mem::replace(&mut self.state, State::Idle);
        match told(alloc, state, given)? {
            Turn::Works { state, wish } => {
                give_up(mem::replace(&mut self.state, state));
                Ok(Act::Do(wish.deed()))
            }
            Turn::Replies(reply) => Ok(Act::Reply(reply)),
            Turn::Rests => Ok(Act::Rest),
        }
    }

    ghost right = { ro_right };

    ghost ends = { ro_ends };

    ghost polite = { ro_polite };

    ghost polite_undoing = { ro_polite_undoing };
}
