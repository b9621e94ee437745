//! Laws of what a test of keys tells, and of the order in which it asks.
ghost use Rattle.key_conflicts.specs.Judged.{TellsJudged, TestsOrderly};

/// What a test tells of its keys is what their newest versions are over the pages that it was given,
/// in their order. It does nothing when it is run.
#[tactic(auto, using(crate::proofs::JudgedLaws::tells_judged))]
pub fn judged_law()
    ensures { TellsJudged }
{}

/// A child is asked for only right after the page above it. It does nothing when it is run.
#[tactic(auto, using(crate::proofs::OrderLaws::tests_orderly))]
pub fn order_law()
    ensures { TestsOrderly }
{}
