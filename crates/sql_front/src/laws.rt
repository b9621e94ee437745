//! What holds of the grammar.

ghost use Rattle.sql_front.specs.Created.{MakeTables};
ghost use Rattle.sql_front.specs.Sentences.{HaveOneMeaning, HaveOneReading};

use sql_words::one_reading;

/// Symbols are one statement at most: the grammar is not ambiguous.
#[tactic(auto, using(crate::proofs::Statements::one_meaning))]
pub fn one_meaning()
    ensures { HaveOneMeaning }
{}

/// Parsed statements create proper tables: of 1 to 16 columns with different names, one of which is the key,
/// under a name that is no reserved word.
pub fn created_tables()
    ensures { MakeTables }
{}

/// A text is one statement, or is first wrong at one offset, and never both.
#[tactic(auto, using(crate::proofs::Verdicts::one_reading))]
pub fn reading_laws()
    ensures { HaveOneReading }
{
    one_reading();
}
