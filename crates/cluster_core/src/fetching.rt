//! A turn with a fetch.
ghost use Rattle.std.specs.Prelude.{◌≡◌, IfOk, OnOk, IsSome, Some};
ghost use Rattle.question_tree.specs.Questions.{wanted};
ghost use Rattle.cluster_core.specs.Pools.{IsServing};
ghost use Rattle.cluster_core.specs.Stages.{AsksOver, HandsAsked, IsFetched, IsUnderWay, RunsAfter, RunsAgain, RunsNow, Stands, StandsIf, page_wanted};
ghost use Rattle.cluster_core.specs.Turns.{FetchGoes, FetchTurn};

use crate::acting::{act, slots_in};
use crate::hearing::hand;
use crate::stages::{Report, Stage, Turned};
use crate::waiting::fill;
use page_pool::PagePool;
use rm_base::{NodeId, PageId, WantOfMemory};
use statement_work::Worker;
use std::alloc::Global;

/// The fetch goes on, or its page is given.
#[tactic(auto, using(crate::proofs::PoolLaws::not_busy, crate::proofs::TurnLaws::fetch_on, crate::proofs::TurnLaws::fetch_over, crate::proofs::TurnLaws::is_handed, crate::proofs::TurnLaws::asks_now))]
fn fetch_goes<P: PagePool, W: Worker>(
    alloc: Global,
    pool: &mut P,
    worker: &mut W,
    n: NodeId,
    stage: Stage,
    page: PageId,
) -> Result<Turned, WantOfMemory>
    requires serves { IsServing n (P.state pool.old) }
    requires fetched { IsFetched page ((P.state pool.old).node n) }
    requires stands { Stands W.terms (W.work worker.old) ((P.state pool.old).node n) stage }
    requires asks { AsksOver W.terms n page (P.state pool.old) (W.work worker.old) }
    requires plans { RunsNow W.terms W.undoes n (P.state pool.old) (W.work worker.old) }
    ensures goes { IfOk result (λ turned. FetchGoes W.terms W.undoes n page stage (W.work worker.old)
        (P.state pool.old) (P.state pool.new) (W.work worker.new) turned) }
    ensures serves { OnOk result (IsServing n (P.state pool.new)) }
    ensures stands { IfOk result (λ turned.
        StandsIf W.terms (W.work worker.new) ((P.state pool.new).node n) turned.stage) }
{
    if pool.is_busy(n) {
        Ok(Turned {
            stage: Some(stage),
            report: Report::Went,
        })
    } else {
        drop(stage);
        hand(alloc, pool, worker, n, page)
    }
}

/// A turn with a fetch: an act of it, or its end.
#[tactic(auto, using(crate::proofs::PoolLaws::acts_next, crate::proofs::PoolLaws::not_busy, crate::proofs::TurnLaws::fetch_uninstalled, crate::proofs::TurnLaws::is_handed, crate::proofs::TurnLaws::asks_now, crate::proofs::TurnLaws::still_fetched, crate::proofs::TurnLaws::still_stands, crate::proofs::TurnLaws::asks_then, crate::proofs::TurnLaws::runs_then, crate::proofs::TurnLaws::again_then, crate::proofs::TurnLaws::asks_here, crate::proofs::TurnLaws::runs_here, crate::proofs::TurnLaws::fetch_acted, crate::proofs::TurnLaws::fetch_filled, crate::proofs::TurnLaws::fetch_ended))]
pub(crate) fn fetch_turn<P: PagePool, W: Worker>(
    alloc: Global,
    pool: &mut P,
    worker: &mut W,
    n: NodeId,
    stage: Stage,
    page: PageId,
) -> Result<Turned, WantOfMemory>
    requires serves { IsServing n (P.state pool.old) }
    requires moves { IsUnderWay ((P.state pool.old).node n) }
    requires fetched { IsFetched page ((P.state pool.old).node n) }
    requires fetches { page_wanted stage ≡ Some page }
    requires wants { IsSome (wanted (W.work worker.old)) }
    requires stands { Stands W.terms (W.work worker.old) ((P.state pool.old).node n) stage }
    requires asks { HandsAsked W.terms n page (P.state pool.old) (W.work worker.old) }
    requires plans { RunsAfter W.terms W.undoes n (P.state pool.old) (W.work worker.old) }
    requires again { RunsAgain W.terms n (P.state pool.old) (W.work worker.old) }
    ensures turns { IfOk result (λ turned. FetchTurn W.terms W.undoes n page stage (W.work worker.old)
        (P.state pool.old) (P.state pool.new) (W.work worker.new) turned) }
    ensures serves { OnOk result (IsServing n (P.state pool.new)) }
    ensures stands { IfOk result (λ turned.
        StandsIf W.terms (W.work worker.new) ((P.state pool.new).node n) turned.stage) }
{
    if !pool.is_busy(n) {
        drop(stage);
        return hand(alloc, pool, worker, n, page);
    }
    let outcome = act(alloc, pool, n)?;
    match slots_in(&outcome) {
        Some(slots) => {
            let turned = fill(alloc, pool, worker, n, slots)?;
            Ok(turned)
        }
        None => {
            let turned = fetch_goes(alloc, pool, worker, n, stage, page)?;
            Ok(turned)
        }
    }
}
