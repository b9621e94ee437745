//! A turn with a plan.
ghost use Rattle.std.specs.Prelude.{◌≡◌, IfOk, OnOk};
ghost use Rattle.statement_work.specs.Works as works;
ghost use Rattle.statement_work.specs.Works.{AskedFor};
ghost use Rattle.cluster_core.specs.Pools.{IsServing};
ghost use Rattle.cluster_core.specs.Stages.{IsPlanned, IsUnderWay, RunsAfter, RunsAgain, RunsNow, Stands, StandsIf};
ghost use Rattle.cluster_core.specs.Turns.{PlanGoes, PlanTurn, kind_of};
ghost use Rattle.cluster_core.specs.Turns as turns;
ghost use Rattle.cluster_core.specs.declared.stages.Stage.TheVariants.{Running};

use crate::acting::{act, end_in, slots_in};
use crate::hearing::tell_ran;
use crate::stages::{Report, Stage, Turned};
use crate::waiting::fill;
use page_pool::{Outcome, PagePool};
use redo_record::PlanKind;
use rm_base::{NodeId, WantOfMemory};
use statement_work::Worker;
use std::alloc::Global;

fn report_for(kind: PlanKind, end: u64) -> Report
    ensures { result ≡ turns.report_for kind end }
{
    match kind {
        PlanKind::Begin(trx) => Report::Numbered(trx),
        PlanKind::Commit => Report::Queued(end),
        PlanKind::Change | PlanKind::Split | PlanKind::Undo | PlanKind::Free => Report::Went,
    }
}

fn report_of(kind: Option<PlanKind>, end: Option<u64>) -> Report
    ensures { result ≡ turns.report_of kind end }
{
    match kind {
        None => Report::Went,
        Some(kind) => match end {
            None => Report::Went,
            Some(end) => report_for(kind, end),
        },
    }
}

/// The kind of the plan that is under way.
fn kind_under_way<P: PagePool>(pool: &P, n: NodeId) -> Option<PlanKind>
    requires serves { IsServing n (P.state pool.now) }
    ensures { result ≡ kind_of ((P.state pool.now).node n).job }
{
    match pool.plan(n) {
        Some(plan) => Some(plan.kind),
        None => None,
    }
}

/// How many slots the pool has, where it is full and nothing is installed.
fn filled(installed: bool, outcome: &Option<Outcome>) -> Option<u32>
    ensures { result ≡ turns.filled installed outcome.now }
{
    if installed { None } else { slots_in(outcome) }
}

fn now_installed(installed: bool, end: Option<u64>) -> bool
    ensures { result ≡ turns.now_installed installed end }
{
    installed || end.is_some()
}

/// The plan goes on, or the worker is told that it ran.
#[tactic(auto, using(crate::proofs::PoolLaws::not_busy, crate::proofs::PlanLaws::plan_on, crate::proofs::PlanLaws::plan_over, crate::proofs::PlanLaws::on_stands, crate::proofs::PlanLaws::ran))]
fn plan_goes<P: PagePool, W: Worker>(
    alloc: Global,
    pool: &mut P,
    worker: &mut W,
    n: NodeId,
    installed: bool,
    report: Report,
) -> Result<Turned, WantOfMemory>
    requires serves { IsServing n (P.state pool.old) }
    requires planned { IsPlanned W.terms (W.work worker.old) ((P.state pool.old).node n) installed }
    requires asked { AskedFor (W.work worker.old) works.Made }
    requires plans { RunsNow W.terms W.undoes n (P.state pool.old) (W.work worker.old) }
    ensures goes { IfOk result (λ turned. PlanGoes W.terms W.undoes n installed report (W.work worker.old)
        (P.state pool.old) (P.state pool.new) (W.work worker.new) turned) }
    ensures serves { OnOk result (IsServing n (P.state pool.new)) }
    ensures stands { IfOk result (λ turned.
        StandsIf W.terms (W.work worker.new) ((P.state pool.new).node n) turned.stage) }
{
    if pool.is_busy(n) {
        Ok(Turned {
            stage: Some(Stage::Running(installed)),
            report,
        })
    } else {
        tell_ran(alloc, pool, worker, n, report)
    }
}

/// A turn with a plan: an act of it.
#[tactic(auto, using(crate::proofs::PoolLaws::acts_next, crate::proofs::PlanLaws::plan_busy, crate::proofs::PlanLaws::plan_asked, crate::proofs::PlanLaws::plan_wants, crate::proofs::PlanLaws::plan_uninstalled, crate::proofs::PlanLaws::still_planned, crate::proofs::TurnLaws::runs_then, crate::proofs::TurnLaws::again_then, crate::proofs::PlanLaws::plan_filled, crate::proofs::PlanLaws::plan_acted))]
pub(crate) fn plan_turn<P: PagePool, W: Worker>(
    alloc: Global,
    pool: &mut P,
    worker: &mut W,
    n: NodeId,
    installed: bool,
) -> Result<Turned, WantOfMemory>
    requires serves { IsServing n (P.state pool.old) }
    requires moves { IsUnderWay ((P.state pool.old).node n) }
    requires stands { Stands W.terms (W.work worker.old) ((P.state pool.old).node n) (Running installed) }
    requires plans { RunsAfter W.terms W.undoes n (P.state pool.old) (W.work worker.old) }
    requires again { RunsAgain W.terms n (P.state pool.old) (W.work worker.old) }
    ensures turns { IfOk result (λ turned. PlanTurn W.terms W.undoes n installed (W.work worker.old)
        (P.state pool.old) (P.state pool.new) (W.work worker.new) turned) }
    ensures serves { OnOk result (IsServing n (P.state pool.new)) }
    ensures stands { IfOk result (λ turned.
        StandsIf W.terms (W.work worker.new) ((P.state pool.new).node n) turned.stage) }
{
    let kind = kind_under_way(pool, n);
    let outcome = act(alloc, pool, n)?;
    match filled(installed, &outcome) {
        Some(slots) => {
            let turned = fill(alloc, pool, worker, n, slots)?;
            Ok(turned)
        }
        None => {
            let end = end_in(&outcome);
            let installed = now_installed(installed, end);
            let turned = plan_goes(alloc, pool, worker, n, installed, report_of(kind, end))?;
            Ok(turned)
        }
    }
}
