//! From pages of different times to the table machine's answer.
ghost use Rattle.history.specs.Languages.{KeepsCatalogName};
ghost use Rattle.reads_joined.specs.Reader.{ReaderIsAnswered};
ghost use Rattle.reads_joined.specs.Answering.{FoundIsAnswered, ReadersAnswerAlways, RunsAnswer, WritersBegin};

use table_machine::Language;

/// What a statement finds over pages of different times answers as its transaction's view does. It
/// does nothing when it is run.
pub fn answer_laws<L: Language>()
    ensures found { FoundIsAnswered }
    ensures readers { ReadersAnswerAlways L.language }
    ensures runs { KeepsCatalogName L.language → RunsAnswer L.language }
    ensures writers { WritersBegin L.language }
{}

/// What the reader of a statement finds in the images that it is given answers as its transaction's
/// view does. It does nothing when it is run.
pub fn reader_laws()
    ensures answered { ReaderIsAnswered }
{}
