//! Laws of what a reader tells, and of the order in which it asks.
ghost use Rattle.range_reader.specs.Laws.{FindsOrderly, TellsFound};

/// What a reader tells is what is found over the pages that it was given, in their order. It does
/// nothing when it is run.
#[tactic(auto, using(crate::proofs::UseLaws::tells_found))]
pub fn found_law()
    ensures { TellsFound }
{}

/// A child is asked for only right after the page above it. It does nothing when it is run.
#[tactic(auto, using(crate::proofs::OrderLaws::finds_orderly))]
pub fn order_law()
    ensures { FindsOrderly }
{}
