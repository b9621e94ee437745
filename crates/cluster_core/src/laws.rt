//! Laws of the account.
ghost use Rattle.cluster_core.specs.LedgerLaws.{EnqueueIsTold, ExecIsTold, JoinIsTold, ReplyIsTold, SettleIsTold, SnapIsTold, StartIsTold, SubmitIsTold, UseIsTold};

use table_machine::Language;

/// What each entry makes of an account that tells of a table machine: the entry is a step of the machine, and the
/// account tells of the machine after it. It does nothing when it is run.
pub fn ledger_laws<L: Language>()
    ensures start { StartIsTold L.language }
    ensures joins { JoinIsTold L.language }
    ensures submits { SubmitIsTold L.language }
    ensures snaps { SnapIsTold L.language }
    ensures executes { ExecIsTold L.language }
    ensures enqueues { EnqueueIsTold L.language }
    ensures settles { SettleIsTold L.language }
    ensures replies { ReplyIsTold L.language }
    ensures uses { UseIsTold L.language }
{}
