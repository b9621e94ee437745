ghost use Rattle.table_machine.specs.Language as machine;
ghost use Rattle.table_machine.specs.Laws.{AloneHasNoConflict, AnswersGoOn, BeginIsARun, CommitIsMade, CommitsStay, ForcedMayStand, FrontsAreRuns, InTurnIsARun, JoinServes, LinesAreAnswered, OkIsCommitted, OneSerial, OverlapsShareNoKey, QueuesOwnChanges, RunsAreDetermined, RunsGoOn, ServingGoesOn, ServingIsARun, SettlesChanges, StepsAreDetermined, TurnsAreAnswered, TurnsGoOn, WaitingStays};
ghost use Rattle.sql_database.specs.Rules.{AnswerRules};

/// A language of statements: which texts are read as which statements, each in one way, and which answers a
/// statement has over a database, which keep the rules of answers.
pub trait Language {
    ghost language: { machine.Language };

    ghost answer_rules: { AnswerRules language.answers };

    ghost one_reading: { machine.ReadsOneWay language };
}

/// The laws of the table machine. It does nothing when it is run.
pub fn machine_laws<L: Language>()
    ensures fronts { FrontsAreRuns L.language }
    ensures goes_on { RunsGoOn L.language }
    ensures commits_stay { CommitsStay L.language }
    ensures queues { QueuesOwnChanges L.language }
    ensures waiting_stays { WaitingStays L.language }
    ensures settles { SettlesChanges L.language }
    ensures ok_is_committed { OkIsCommitted L.language }
    ensures commit_is_made { CommitIsMade L.language }
    ensures overlaps { OverlapsShareNoKey L.language }
    ensures forced { ForcedMayStand L.language }
    ensures determined { StepsAreDetermined L.language }
    ensures runs_determined { RunsAreDetermined L.language }
    ensures serving { ServingIsARun L.language }
    ensures more_lines { ServingGoesOn L.language }
    ensures one_serial { OneSerial L.language }
    ensures begin { BeginIsARun L.language }
{}

/// The laws of one session that is alone and is answered line by line. It does nothing when it is run.
pub fn serving_laws<L: Language>()
    ensures joins { JoinServes L.language }
    ensures turns { TurnsAreAnswered L.language }
    ensures lines { LinesAreAnswered L.language }
    ensures is_run { InTurnIsARun L.language }
    ensures more_turns { TurnsGoOn L.language }
    ensures no_conflict { AloneHasNoConflict }
    ensures answers { AnswersGoOn L.language }
{}
