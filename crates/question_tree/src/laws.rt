ghost use Rattle.std.specs.Prelude.{ℕ};
ghost use Rattle.question_tree.specs.Example.{ExampleAsks};
ghost use Rattle.question_tree.specs.Laws.{Splits, Joins, CollectSplits, GoesOn, Ends, Falls, StepsOn, LiftSteps, LiftSplits};

/// What holds of each work, here over numbers. It does nothing when it is run.
#[tactic(auto, using(crate::proofs::OverNumbers::splits, crate::proofs::OverNumbers::joins, crate::proofs::OverNumbers::collect_splits, crate::proofs::OverNumbers::goes_on, crate::proofs::OverNumbers::ends, crate::proofs::OverNumbers::falls, crate::proofs::OverNumbers::steps_on))]
pub fn question_laws()
    ensures splits { Splits ℕ ℕ ℕ ℕ }
    ensures joins { Joins ℕ ℕ ℕ ℕ }
    ensures collects { CollectSplits ℕ ℕ ℕ ℕ ℕ }
    ensures goes_on { GoesOn ℕ ℕ ℕ }
    ensures ends { Ends ℕ ℕ ℕ }
    ensures falls { Falls ℕ ℕ ℕ }
    ensures steps { StepsOn ℕ ℕ ℕ ℕ }
{}

/// What holds of each work in another one's words. It does nothing when it is run.
#[tactic(auto, using(crate::proofs::OverNumbers::lift_steps, crate::proofs::OverNumbers::lift_splits))]
pub fn lift_laws()
    ensures steps { LiftSteps ℕ ℕ ℕ ℕ ℕ ℕ }
    ensures splits { LiftSplits ℕ ℕ ℕ ℕ ℕ ℕ }
{}

/// A work of two questions, step by step. It does nothing when it is run.
#[tactic(auto, using(crate::proofs::OverNumbers::example))]
pub fn example_laws()
    ensures { ExampleAsks }
{}
