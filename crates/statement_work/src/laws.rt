//! Laws of work.
ghost use Rattle.statement_work.specs.Example.{ExampleWorks};

/// A work of a few acts, step by step. It does nothing when it is run.
#[tactic(auto, using(crate::proofs::ExampleLaws::example))]
pub fn example_laws()
    ensures { ExampleWorks }
{}
