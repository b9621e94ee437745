//! A turn of a node's worker, whatever it wants.
ghost use Rattle.std.specs.Prelude.{◌≡◌, IfOk, OnOk, IsTrue, ◌↔◌, None};
ghost use Rattle.cluster_core.specs.Pools.{IsServing};
ghost use Rattle.cluster_core.specs.Stages.{IsReady, MayTurn, Stands, StandsIf};
ghost use Rattle.cluster_core.specs.Turns.{Turns};

use crate::beginning::page_at;
use crate::ending::{append_turn, release_turn};
use crate::fetching::fetch_turn;
use crate::hearing::tell_stamp;
use crate::running::plan_turn;
use crate::stages::{Report, Stage, Turned};
use crate::waiting::quit_turn;
use page_pool::PagePool;
use rm_base::{NodeId, Stamp, WantOfMemory};
use statement_work::Worker;
use std::alloc::Global;

/// Whether what is under way waits for no answer, and an append can be made.
pub(crate) fn may_turn<P: PagePool>(pool: &P, n: NodeId, stage: &Stage) -> bool
    requires serves { IsServing n (P.state pool.now) }
    ensures { IsTrue result ↔ MayTurn n (P.state pool.now) stage.now }
{
    match stage {
        Stage::Fetching(_) | Stage::FetchingFixed(_) | Stage::FetchingSure(_) => {
            !pool.is_waiting(n)
        }
        Stage::Running(_) | Stage::Quitting(_) => !pool.is_waiting(n),
        Stage::Appending => pool.can_append(n),
        _ => true,
    }
}

/// The node's turn, with the stamp that a snapshot takes now.
#[tactic(auto, using(crate::proofs::WorkLaws::fetch_turns, crate::proofs::WorkLaws::wants_stage, crate::proofs::WorkLaws::fetching_turns, crate::proofs::WorkLaws::fixed_turns, crate::proofs::WorkLaws::sure_turns, crate::proofs::WorkLaws::stamp_runs, crate::proofs::EndLaws::stamp_asked))]
pub(crate) fn worker_turn<P: PagePool, W: Worker>(
    alloc: Global,
    pool: &mut P,
    worker: &mut W,
    n: NodeId,
    stage: Stage,
    stamp: Stamp,
) -> Result<Turned, WantOfMemory>
    requires serves { IsServing n (P.state pool.old) }
    requires may { MayTurn n (P.state pool.old) stage }
    requires stands { Stands W.terms (W.work worker.old) ((P.state pool.old).node n) stage }
    requires ready { IsReady W.terms W.undoes n (W.work worker.old) (P.state pool.old) stage }
    ensures turns { IfOk result (λ turned. Turns W.terms W.undoes n stamp stage (W.work worker.old)
        (P.state pool.old) (P.state pool.new) (W.work worker.new) turned) }
    ensures serves { OnOk result (IsServing n (P.state pool.new)) }
    ensures stands { IfOk result (λ turned.
        StandsIf W.terms (W.work worker.new) ((P.state pool.new).node n) turned.stage) }
{
    match stage {
        Stage::Fetching(fetch) => {
            let page = fetch.page();
            let turned = fetch_turn(alloc, pool, worker, n, Stage::Fetching(fetch), page)?;
            Ok(turned)
        }
        Stage::FetchingFixed(place) => {
            let page = page_at(place);
            let turned = fetch_turn(alloc, pool, worker, n, Stage::FetchingFixed(place), page)?;
            Ok(turned)
        }
        Stage::FetchingSure(fetch) => {
            let page = fetch.page();
            let turned = fetch_turn(alloc, pool, worker, n, Stage::FetchingSure(fetch), page)?;
            Ok(turned)
        }
        Stage::Releasing(page) => release_turn(alloc, pool, worker, n, page),
        Stage::Running(installed) => plan_turn(alloc, pool, worker, n, installed),
        Stage::Stamping => tell_stamp(alloc, pool, worker, n, stamp),
        Stage::Appending => append_turn(alloc, pool, worker, n),
        Stage::Quitting(slots) => quit_turn(alloc, pool, worker, n, slots),
        Stage::Replying(reply) => Ok(over(Report::Replied(reply))),
        Stage::Resting => Ok(over(Report::Rested)),
    }
}

fn over(report: Report) -> Turned
    ensures { result ≡ record { stage = None; report = report } }
{
    Turned {
        stage: None,
        report,
    }
}
