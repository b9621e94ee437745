//! A worker is told of what came, and what it wants then is begun.
ghost use Rattle.std.specs.Prelude.{◌≡◌, IfOk, OnOk, IsSome};
ghost use Rattle.page_pool.specs.Nodes.{Job.Rests};
ghost use Rattle.question_tree.specs.Questions.{after, wanted};
ghost use Rattle.statement_work.specs.declared.acts.Obstacle.TheVariants as obstacle;
ghost use Rattle.statement_work.specs.Works as works;
ghost use Rattle.statement_work.specs.Works.{AskedFor};
ghost use Rattle.statement_work.specs.Acting.{Suits, anew, met, told};
ghost use Rattle.cluster_core.specs.Pools.{IsServing};
ghost use Rattle.cluster_core.specs.Stages.{AsksNow, PlansRun, RunsNow, StandsIf};
ghost use Rattle.cluster_core.specs.Turns.{GoesOn, Hands, IsGone};
ghost use Rattle.cluster_core.specs.declared.stages.Report.TheVariants as report;

use crate::beginning::begin;
use crate::stages::{Report, Stage, Turned};
use page_pool::PagePool;
use rm_base::{NodeId, PageId, Stamp, WantOfMemory};
use statement_work::{Given, Obstacle, Worker};
use std::alloc::Global;

/// The worker is told that its act was made.
#[tactic(auto, using(crate::proofs::HearLaws::runs, crate::proofs::HearLaws::goes, crate::proofs::HearLaws::begun_serves))]
pub(crate) fn tell_ran<P: PagePool, W: Worker>(
    alloc: Global,
    pool: &mut P,
    worker: &mut W,
    n: NodeId,
    report: Report,
) -> Result<Turned, WantOfMemory>
    requires serves { IsServing n (P.state pool.old) }
    requires free { ((P.state pool.old).node n).job ≡ Rests }
    requires asked { AskedFor (W.work worker.old) works.Made }
    requires plans { PlansRun W.terms (P.state pool.old)
        (anew W.undoes (after (W.work worker.old) works.Made)) }
    ensures goes { IfOk result (λ turned. IsGone W.terms n (anew W.undoes (after (W.work worker.old) works.Made))
        (P.state pool.old) (P.state pool.new) (W.work worker.new) report turned) }
    ensures serves { OnOk result (IsServing n (P.state pool.new)) }
    ensures stands { IfOk result (λ turned.
        StandsIf W.terms (W.work worker.new) ((P.state pool.new).node n) turned.stage) }
{
    let act = worker.next(alloc, Given::Ran)?;
    let stage = begin(alloc, pool, n, act)?;
    Ok(Turned {
        stage: Some(stage),
        report,
    })
}

/// The worker gets the stamp of its snapshot.
#[tactic(auto, using(crate::proofs::HearLaws::runs, crate::proofs::HearLaws::goes, crate::proofs::HearLaws::begun_serves))]
pub(crate) fn tell_stamp<P: PagePool, W: Worker>(
    alloc: Global,
    pool: &mut P,
    worker: &mut W,
    n: NodeId,
    stamp: Stamp,
) -> Result<Turned, WantOfMemory>
    requires serves { IsServing n (P.state pool.old) }
    requires free { ((P.state pool.old).node n).job ≡ Rests }
    requires asked { AskedFor (W.work worker.old) (works.Stamped stamp) }
    requires plans { PlansRun W.terms (P.state pool.old)
        (anew W.undoes (after (W.work worker.old) (works.Stamped stamp))) }
    ensures goes { IfOk result (λ turned. IsGone W.terms n
        (anew W.undoes (after (W.work worker.old) (works.Stamped stamp)))
        (P.state pool.old) (P.state pool.new) (W.work worker.new) (report.Snapped stamp) turned) }
    ensures serves { OnOk result (IsServing n (P.state pool.new)) }
    ensures stands { IfOk result (λ turned.
        StandsIf W.terms (W.work worker.new) ((P.state pool.new).node n) turned.stage) }
{
    let act = worker.next(alloc, Given::Stamp(stamp))?;
    let stage = begin(alloc, pool, n, act)?;
    Ok(Turned {
        stage: Some(stage),
        report: Report::Snapped(stamp),
    })
}

/// The worker is told that the pool, with so many slots, is full.
#[tactic(auto, using(crate::proofs::HearLaws::runs, crate::proofs::HearLaws::met_runs, crate::proofs::HearLaws::goes, crate::proofs::HearLaws::begun_serves))]
pub(crate) fn tell_full<P: PagePool, W: Worker>(
    alloc: Global,
    pool: &mut P,
    worker: &mut W,
    n: NodeId,
    slots: u32,
) -> Result<Turned, WantOfMemory>
    requires serves { IsServing n (P.state pool.old) }
    requires free { ((P.state pool.old).node n).job ≡ Rests }
    requires wants { IsSome (wanted (W.work worker.old)) }
    requires plans { PlansRun W.terms (P.state pool.old) (W.work worker.old) }
    ensures goes { IfOk result (λ turned. IsGone W.terms n (met (W.work worker.old) (obstacle.PoolFull slots))
        (P.state pool.old) (P.state pool.new) (W.work worker.new) report.Went turned) }
    ensures serves { OnOk result (IsServing n (P.state pool.new)) }
    ensures stands { IfOk result (λ turned.
        StandsIf W.terms (W.work worker.new) ((P.state pool.new).node n) turned.stage) }
{
    let act = worker.next(alloc, Given::Met(Obstacle::PoolFull(slots)))?;
    let stage = begin(alloc, pool, n, act)?;
    Ok(Turned {
        stage: Some(stage),
        report: Report::Went,
    })
}

/// The worker gets the page that was handed out.
#[tactic(auto, using(crate::proofs::HearLaws::runs, crate::proofs::HearLaws::goes, crate::proofs::HearLaws::begun_serves, crate::proofs::HearLaws::hands, crate::proofs::HearLaws::asked_there, crate::proofs::HearLaws::run_there))]
pub(crate) fn hand<P: PagePool, W: Worker>(
    alloc: Global,
    pool: &mut P,
    worker: &mut W,
    n: NodeId,
    page: PageId,
) -> Result<Turned, WantOfMemory>
    requires serves { IsServing n (P.state pool.old) }
    requires free { ((P.state pool.old).node n).job ≡ Rests }
    requires there { IsSome (((P.state pool.old).node n).handed page) }
    requires asked { AsksNow W.terms n page (P.state pool.old) (W.work worker.old) }
    requires plans { RunsNow W.terms W.undoes n (P.state pool.old) (W.work worker.old) }
    ensures hands { IfOk result (λ turned. Hands W.terms W.undoes n page (W.work worker.old)
        (P.state pool.old) (P.state pool.new) (W.work worker.new) turned) }
    ensures serves { OnOk result (IsServing n (P.state pool.new)) }
    ensures stands { IfOk result (λ turned.
        StandsIf W.terms (W.work worker.new) ((P.state pool.new).node n) turned.stage) }
{
    let Some(origin) = pool.origin(n, page) else {
        unreachable!()
    };
    let Some(image) = pool.image(n, page) else {
        unreachable!()
    };
    let lsn = image.lsn();
    let act = worker.next(alloc, Given::Page(image))?;
    let stage = begin(alloc, pool, n, act)?;
    Ok(Turned {
        stage: Some(stage),
        report: Report::Used { page, lsn, origin },
    })
}
