ghost use Rattle.history.specs.Languages.{KeepsCatalogName};
ghost use Rattle.history.specs.Laws.{AnswersStay, EventsMakeHistory, RunsAreFair};
ghost use Rattle.history.specs.SmallRun.{SmallRunHappens};
ghost use Rattle.history.specs.Takeovers.{LossesKeepLog, TakeoversBeginAgain, TakeoversKeepDurable};

use table_machine::Language;

/// In every run of the table machine open transactions share no key, what is committed fits what stood before, and
/// an answer over a transaction's view stays the answer. It does nothing when it is run.
pub fn fair_laws<L: Language>()
    ensures fair { KeepsCatalogName L.language → RunsAreFair L.language }
    ensures stays { AnswersStay L.language }
{}

/// Every journal that a cluster's events write is a run of the table machine, and its log stands for the commits. It
/// does nothing when it is run.
pub fn history_laws<L: Language>()
    ensures history { KeepsCatalogName L.language → EventsMakeHistory L.language }
{}

/// What a takeover commits, also one that is lost and begun again, and that no loss of nodes moves the log or the
/// commits. It does nothing when it is run.
pub fn incident_laws<L: Language>()
    ensures durable { KeepsCatalogName L.language → TakeoversKeepDurable L.language }
    ensures again { KeepsCatalogName L.language → TakeoversBeginAgain L.language }
    ensures losses { LossesKeepLog L.language }
{}

/// A run of two nodes happens, by computation, so that the laws speak of something. It does nothing when it is run.
pub fn small_run_laws()
    ensures happens { SmallRunHappens }
{}
