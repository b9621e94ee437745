//! A node's turn: its worker's task, and what it takes up next.
ghost use Rattle.std.specs.Prelude.{◌≡◌, IfOk, OnOk, IsTrue, ◌↔◌};
ghost use Rattle.cluster_core.specs.Pools.{IsServing};
ghost use Rattle.cluster_core.specs.Ledgers.{HasRoom, account_of};
ghost use Rattle.cluster_core.specs.Stages.{IsReady, Stands, StandsIf};
ghost use Rattle.cluster_core.specs.Desks.{IsNoted, MayWork, TaskTurn, stage_of, task_for};

use crate::ledger::Ledger;
use crate::recording::Purpose;
use crate::stages::{Stage, Turned};
use crate::working::{may_turn, worker_turn};
use page_pool::PagePool;
use rm_base::{NodeId, WantOfMemory};
use statement_work::Worker;
use std::alloc::Global;

/// What a worker is busy with, and what it wants for that.
#[derive(Drop)]
pub struct Task {
    pub purpose: Purpose,
    pub stage: Stage,
}

/// Whether the task has a next act, which the ledger has room for.
pub fn may_work<P: PagePool>(pool: &P, ledger: &Ledger, n: NodeId, task: &Task) -> bool
    requires serves { IsServing n (P.state pool.now) }
    ensures { IsTrue result ↔ MayWork n (P.state pool.now) (account_of ledger.now) task.now }
{
    ledger.has_room() && may_turn(pool, n, &task.stage)
}

fn go_on(purpose: Purpose, stage: Option<Stage>) -> Option<Task>
    ensures { result ≡ task_for purpose stage }
{
    match stage {
        None => None,
        Some(stage) => Some(Task { purpose, stage }),
    }
}

/// Writes down what a turn came to.
#[tactic(auto, using(crate::proofs::DeskLaws::noted))]
fn note(ledger: &mut Ledger, purpose: Purpose, turned: Turned) -> Result<Option<Task>, WantOfMemory>
    requires room { HasRoom (account_of ledger.old) }
    ensures { IfOk result (λ left. IsNoted purpose turned (account_of ledger.old) (account_of ledger.new) left) }
{
    let Turned { stage, report } = turned;
    ledger.record(&purpose, report)?;
    Ok(go_on(purpose, stage))
}

/// A turn of the node with its task: the next act of what its worker wants, which the ledger has room for.
/// Answers what is left of the task.
#[tactic(auto, using(crate::proofs::DeskLaws::turned_over, crate::proofs::DeskLaws::left_stands_over))]
pub fn task_turn<P: PagePool, W: Worker>(
    alloc: Global,
    pool: &mut P,
    worker: &mut W,
    ledger: &mut Ledger,
    n: NodeId,
    task: Task,
) -> Result<Option<Task>, WantOfMemory>
    requires serves { IsServing n (P.state pool.old) }
    requires may { MayWork n (P.state pool.old) (account_of ledger.old) task }
    requires stands { Stands W.terms (W.work worker.old) ((P.state pool.old).node n) task.stage }
    requires ready { IsReady W.terms W.undoes n (W.work worker.old) (P.state pool.old) task.stage }
    ensures turns { IfOk result (λ left. TaskTurn W.terms W.undoes n task (W.work worker.old) (P.state pool.old)
        (account_of ledger.old) (P.state pool.new) (W.work worker.new) (account_of ledger.new) left) }
    ensures serves { OnOk result (IsServing n (P.state pool.new)) }
    ensures stands { IfOk result (λ left. StandsIf W.terms (W.work worker.new) ((P.state pool.new).node n)
        (stage_of left)) }
{
    let stamp = ledger.published;
    let purpose = task.purpose;
    let turned = worker_turn(alloc, pool, worker, n, task.stage, stamp)?;
    note(ledger, purpose, turned)
}
