//! Turns with a page that is let go, and with an append.
ghost use Rattle.std.specs.Prelude.{◌≡◌, IfOk, OnOk, IsTrue};
ghost use Rattle.page_pool.specs.Nodes.{Job.Rests};
ghost use Rattle.page_pool.specs.State.{IsBeside};
ghost use Rattle.page_pool.specs.Steps.{Steps};
ghost use Rattle.page_pool.specs.declared.events.How.TheVariants.{Made};
ghost use Rattle.page_pool.specs.declared.events.PoolEvent.TheVariants.{Act};
ghost use Rattle.fetch_steps.specs.declared.acts.Action.TheVariants as action;
ghost use Rattle.statement_work.specs.Works as works;
ghost use Rattle.statement_work.specs.Works.{AskedFor};
ghost use Rattle.cluster_core.specs.Pools.{IsServing};
ghost use Rattle.cluster_core.specs.Stages.{RunsAfter, Stands, StandsIf};
ghost use Rattle.cluster_core.specs.Turns.{AppendTurn, Lets, ReleaseTurn};
ghost use Rattle.cluster_core.specs.declared.stages.Stage.TheVariants.{Appending, Releasing};

use crate::hearing::tell_ran;
use crate::stages::{Report, Stage, Turned};
use fetch_steps::Action;
use page_pool::{How, PagePool, PoolAnswer, PoolEvent};
use rm_base::{NodeId, PageId, WantOfMemory};
use statement_work::Worker;
use std::alloc::Global;

/// The node does an act beside what comes next of itself.
#[tactic(auto, using(crate::proofs::PoolLaws::step_serves, crate::proofs::EndLaws::beside_may))]
pub(crate) fn act_beside<P: PagePool>(
    alloc: Global,
    pool: &mut P,
    n: NodeId,
    action: Action,
) -> Result<PoolAnswer, WantOfMemory>
    requires serves { IsServing n (P.state pool.old) }
    requires beside { IsBeside (P.state pool.old) n action }
    ensures steps { IfOk result (λ answer. Steps (Act n action Made) answer (P.state pool.old) (P.state pool.new)) }
    ensures serves { OnOk result (IsServing n (P.state pool.new)) }
{
    pool.step(alloc, &PoolEvent::Act(n, action, How::Made))
}

/// Lets a page go, where the node still has it: whether something got in the way.
#[tactic(auto, using(crate::proofs::EndLaws::gone, crate::proofs::EndLaws::let_go, crate::proofs::EndLaws::has_page))]
fn let_page<P: PagePool>(
    alloc: Global,
    pool: &mut P,
    n: NodeId,
    page: PageId,
) -> Result<bool, WantOfMemory>
    requires serves { IsServing n (P.state pool.old) }
    ensures lets { IfOk result (λ met. Lets n page met (P.state pool.old) (P.state pool.new)) }
    ensures serves { OnOk result (IsServing n (P.state pool.new)) }
{
    if pool.image(n, page).is_none() {
        return Ok(false);
    }
    let answer = act_beside(alloc, pool, n, Action::Release(page))?;
    Ok(answer.meets())
}

/// A turn with a page that is let go.
#[tactic(auto, using(crate::proofs::EndLaws::release_asked, crate::proofs::EndLaws::lets_rests, crate::proofs::EndLaws::runs_let, crate::proofs::EndLaws::ran_beside, crate::proofs::EndLaws::release_stays, crate::proofs::EndLaws::release_goes, crate::proofs::EndLaws::release_stands))]
pub(crate) fn release_turn<P: PagePool, W: Worker>(
    alloc: Global,
    pool: &mut P,
    worker: &mut W,
    n: NodeId,
    page: PageId,
) -> Result<Turned, WantOfMemory>
    requires serves { IsServing n (P.state pool.old) }
    requires stands { Stands W.terms (W.work worker.old) ((P.state pool.old).node n) (Releasing page) }
    requires plans { RunsAfter W.terms W.undoes n (P.state pool.old) (W.work worker.old) }
    ensures turns { IfOk result (λ turned. ReleaseTurn W.terms W.undoes n page (W.work worker.old)
        (P.state pool.old) (P.state pool.new) (W.work worker.new) turned) }
    ensures serves { OnOk result (IsServing n (P.state pool.new)) }
    ensures stands { IfOk result (λ turned.
        StandsIf W.terms (W.work worker.new) ((P.state pool.new).node n) turned.stage) }
{
    if let_page(alloc, pool, n, page)? {
        Ok(Turned {
            stage: Some(Stage::Releasing(page)),
            report: Report::Went,
        })
    } else {
        tell_ran(alloc, pool, worker, n, Report::Went)
    }
}

/// A turn with an append.
#[tactic(auto, using(crate::proofs::EndLaws::append_asked, crate::proofs::EndLaws::beside_rests, crate::proofs::EndLaws::runs_beside, crate::proofs::EndLaws::ran_beside, crate::proofs::EndLaws::append_stays, crate::proofs::EndLaws::append_goes, crate::proofs::EndLaws::append_stands))]
pub(crate) fn append_turn<P: PagePool, W: Worker>(
    alloc: Global,
    pool: &mut P,
    worker: &mut W,
    n: NodeId,
) -> Result<Turned, WantOfMemory>
    requires serves { IsServing n (P.state pool.old) }
    requires stands { Stands W.terms (W.work worker.old) ((P.state pool.old).node n) Appending }
    requires may { IsBeside (P.state pool.old) n action.Append }
    requires plans { RunsAfter W.terms W.undoes n (P.state pool.old) (W.work worker.old) }
    ensures turns { IfOk result (λ turned. AppendTurn W.terms W.undoes n (W.work worker.old)
        (P.state pool.old) (P.state pool.new) (W.work worker.new) turned) }
    ensures serves { OnOk result (IsServing n (P.state pool.new)) }
    ensures stands { IfOk result (λ turned.
        StandsIf W.terms (W.work worker.new) ((P.state pool.new).node n) turned.stage) }
{
    let answer = act_beside(alloc, pool, n, Action::Append)?;
    match answer.kept() {
        None => Ok(Turned {
            stage: Some(Stage::Appending),
            report: Report::Went,
        }),
        Some(tail) => tell_ran(alloc, pool, worker, n, Report::Kept(tail)),
    }
}
