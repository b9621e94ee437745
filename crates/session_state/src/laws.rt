ghost use Rattle.session_state.specs.Laws.{EnqueueTells, ExecTells, FallTells, ForgetTells, JoinTells, LostTells, NodesTell, RefusalTells, ReplyTells, SettleTells, SnapTells, StartTells, SubmitTells, TellsAsking, TellsBusy, TellsNoneForced, TimerTells};

use table_machine::Language;

/// What each entry makes of a table of sessions that tells where those of a table machine stand. Entries that force
/// a reply are taken with it, so that no reply is forced where the table tells. It does nothing when it is run.
pub fn telling_laws<L: Language>()
    ensures start { StartTells L.language }
    ensures joins { JoinTells L.language }
    ensures submits { SubmitTells L.language }
    ensures refusal { RefusalTells L.language }
    ensures lost { LostTells L.language }
    ensures snaps { SnapTells L.language }
    ensures executes { ExecTells L.language }
    ensures enqueues { EnqueueTells L.language }
    ensures settles { SettleTells L.language }
    ensures replies { ReplyTells L.language }
    ensures timer { TimerTells L.language }
    ensures falls { FallTells L.language }
    ensures nodes { NodesTell L.language }
    ensures forgets { ForgetTells L.language }
{}

/// What may be read off such a table: that no reply is forced, and the lists of sessions that a node's fall and the
/// end of a script name. It does nothing when it is run.
pub fn reading_laws<L: Language>()
    ensures free { TellsNoneForced L.language }
    ensures busy { TellsBusy L.language }
    ensures asking { TellsAsking L.language }
{}
