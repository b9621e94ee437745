//! What is given up ends before the worker is told why.
ghost use Rattle.std.specs.Prelude.{◌≡◌, IfOk, OnOk, IsSome, false};
ghost use Rattle.page_pool.specs.Nodes.{is_installed};
ghost use Rattle.question_tree.specs.Questions.{wanted};
ghost use Rattle.cluster_core.specs.Pools.{IsServing};
ghost use Rattle.cluster_core.specs.Stages.{IsUnderWay, PlansRun, RunsAgain, StandsIf};
ghost use Rattle.cluster_core.specs.Turns.{FillsWith, QuitTurn, Quits};

use crate::acting::act;
use crate::hearing::tell_full;
use crate::stages::{Report, Stage, Turned};
use page_pool::PagePool;
use rm_base::{NodeId, WantOfMemory};
use statement_work::Worker;
use std::alloc::Global;

/// The worker is told of the full pool as soon as nothing is under way.
#[tactic(auto, using(crate::proofs::PoolLaws::not_busy, crate::proofs::TurnLaws::quits_later, crate::proofs::TurnLaws::quits_now))]
fn quit<P: PagePool, W: Worker>(
    alloc: Global,
    pool: &mut P,
    worker: &mut W,
    n: NodeId,
    slots: u32,
) -> Result<Turned, WantOfMemory>
    requires serves { IsServing n (P.state pool.old) }
    requires wants { IsSome (wanted (W.work worker.old)) }
    requires plans { PlansRun W.terms (P.state pool.old) (W.work worker.old) }
    ensures quits { IfOk result (λ turned. Quits W.terms n slots (W.work worker.old)
        (P.state pool.old) (P.state pool.new) (W.work worker.new) turned) }
    ensures serves { OnOk result (IsServing n (P.state pool.new)) }
    ensures stands { IfOk result (λ turned.
        StandsIf W.terms (W.work worker.new) ((P.state pool.new).node n) turned.stage) }
{
    if pool.is_busy(n) {
        Ok(Turned {
            stage: Some(Stage::Quitting(slots)),
            report: Report::Went,
        })
    } else {
        tell_full(alloc, pool, worker, n, slots)
    }
}

/// Gives up what is under way, since the pool is full.
#[tactic(auto, using(crate::proofs::PoolLaws::given_up_serves, crate::proofs::TurnLaws::fills, crate::proofs::TurnLaws::given_up_plans))]
pub(crate) fn fill<P: PagePool, W: Worker>(
    alloc: Global,
    pool: &mut P,
    worker: &mut W,
    n: NodeId,
    slots: u32,
) -> Result<Turned, WantOfMemory>
    requires serves { IsServing n (P.state pool.old) }
    requires uninstalled { is_installed ((P.state pool.old).node n).job ≡ false }
    requires wants { IsSome (wanted (W.work worker.old)) }
    requires plans { PlansRun W.terms (P.state pool.old) (W.work worker.old) }
    ensures fills { IfOk result (λ turned. FillsWith W.terms n slots (W.work worker.old)
        (P.state pool.old) (P.state pool.new) (W.work worker.new) turned) }
    ensures serves { OnOk result (IsServing n (P.state pool.new)) }
    ensures stands { IfOk result (λ turned.
        StandsIf W.terms (W.work worker.new) ((P.state pool.new).node n) turned.stage) }
{
    pool.give_up(n);
    quit(alloc, pool, worker, n, slots)
}

/// A turn with what is given up: an act of its end.
#[tactic(auto, using(crate::proofs::PoolLaws::acts_next, crate::proofs::PoolLaws::not_busy, crate::proofs::TurnLaws::again_now, crate::proofs::TurnLaws::again_then, crate::proofs::TurnLaws::quit_busy, crate::proofs::TurnLaws::quit_free))]
pub(crate) fn quit_turn<P: PagePool, W: Worker>(
    alloc: Global,
    pool: &mut P,
    worker: &mut W,
    n: NodeId,
    slots: u32,
) -> Result<Turned, WantOfMemory>
    requires serves { IsServing n (P.state pool.old) }
    requires moves { IsUnderWay ((P.state pool.old).node n) }
    requires wants { IsSome (wanted (W.work worker.old)) }
    requires again { RunsAgain W.terms n (P.state pool.old) (W.work worker.old) }
    ensures turns { IfOk result (λ turned. QuitTurn W.terms n slots (W.work worker.old)
        (P.state pool.old) (P.state pool.new) (W.work worker.new) turned) }
    ensures serves { OnOk result (IsServing n (P.state pool.new)) }
    ensures stands { IfOk result (λ turned.
        StandsIf W.terms (W.work worker.new) ((P.state pool.new).node n) turned.stage) }
{
    if !pool.is_busy(n) {
        return quit(alloc, pool, worker, n, slots);
    }
    let _outcome = act(alloc, pool, n)?;
    quit(alloc, pool, worker, n, slots)
}
