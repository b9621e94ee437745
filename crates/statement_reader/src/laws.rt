//! Laws of what a statement asks for and finds.
ghost use Rattle.statement_reader.specs.Decoding.{Decodes};
ghost use Rattle.statement_reader.specs.Spelling.{decoder, GivesSpelled};
ghost use Rattle.statement_reader.specs.Answered.{FetchesFall, StatementsOrderly, TellsStatement};
ghost use Rattle.statement_reader.specs.Reads.{ReadsOrderly, TellsOutcome, TellsRead};

/// What a statement tells is what it finds over the pages that it was given, in their order. It
/// does nothing when it is run.
#[tactic(auto, using(crate::proofs::AnswerLaws::tells_statement))]
pub fn answer_law()
    ensures { TellsStatement }
{}

/// A child is asked for only right after the page above it. It does nothing when it is run.
#[tactic(auto, using(crate::proofs::AnswerLaws::statements_orderly))]
pub fn order_law()
    ensures { StatementsOrderly }
{}

/// Each page that a statement is given, as the pages stand, leaves one fetch less. It does nothing
/// when it is run.
#[tactic(auto, using(crate::proofs::AnswerLaws::fetches_fall))]
pub fn fetch_law()
    ensures { FetchesFall }
{}

/// There is a decoder that gives what the bytes of items spell, and nothing else. It does nothing when
/// it is run.
#[tactic(auto, using(crate::proofs::SpellingLaws::decodes, crate::proofs::SpellingLaws::gives_spelled))]
pub fn decoder_law()
    ensures decodes { Decodes decoder }
    ensures spelled { GivesSpelled decoder }
{}

/// What is read for a statement, where items spell what their bytes do. It does nothing when it is run.
#[tactic(auto, using(crate::proofs::KeptLaws::tells_read, crate::proofs::KeptLaws::tells_outcome, crate::proofs::KeptLaws::reads_orderly))]
pub fn read_laws()
    // What is told is read over the pages that were given, in their order.
    ensures tells { TellsRead }

    // So is each outcome of it.
    ensures outcome { TellsOutcome }

    // A child is asked for only right after the page above it.
    ensures orderly { ReadsOrderly }
{}
