//! Laws of verdicts on keys.
ghost use Rattle.held_conflicts.specs.Ending.{TestsEnd};
ghost use Rattle.held_conflicts.specs.Example.{ExampleTests};
ghost use Rattle.held_conflicts.specs.Verdicts.{ChangesAreTaken, TestsTellVerdicts};

/// What a test of keys tells is the store's verdict on them, and so which changes are taken. It does
/// nothing when it is run.
pub fn verdict_laws()
    ensures tested { TestsTellVerdicts }
    ensures taken { ChangesAreTaken }
{}

/// A test of keys ends over pages that hold a store. It does nothing when it is run.
pub fn ending_laws()
    ensures { TestsEnd }
{}

/// Two tests over a table with one row of two versions: what each tells, by computation. It does
/// nothing when it is run.
#[tactic(auto, using(crate::proofs::ExampleLaws::example_tests))]
pub fn example_laws()
    ensures tests { ExampleTests }
{}
