//! What holds of each statement of a node that only reads.
ghost use Rattle.std.specs.Prelude.{[]};
ghost use Rattle.statement_work.specs.declared.acts.Job.{Job};
ghost use Rattle.statement_work.specs.Latches.{IsPolite};
ghost use Rattle.ro_worker.specs.Serving.{ro_serves};
ghost use Rattle.ro_worker.specs.Laws.{SelectsAreAnswered, WritesAreRefused};

/// A reply is the statement's over just the pages that were handed in, in their order, at its snapshot. It
/// does nothing when it is run.
#[tactic(auto, using(crate::proofs::AnswerLaws::selects_are_answered, crate::proofs::AnswerLaws::writes_are_refused))]
pub fn answer_laws()
    ensures selects { SelectsAreAnswered }
    ensures writes { WritesAreRefused }
{}

/// Whatever is read for a statement, its latches are taken and released by the protocol. It does nothing when
/// it is run.
#[tactic(auto, using(crate::specs::WorkerLaws::ro_polite))]
pub fn latch_law()
    ensures { (job : Job) → IsPolite [] (ro_serves job) }
{}
