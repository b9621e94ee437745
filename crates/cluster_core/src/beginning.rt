//! What a worker wants is begun.
ghost use Rattle.std.specs.Prelude.{◌≡◌, IfOk, OnOk};
ghost use Rattle.page_pool.specs.Nodes.{Job.Rests};
ghost use Rattle.page_pool.specs.Calls.{BeginsFetch, BeginsPlan, IsRunnable};
ghost use Rattle.statement_work.specs.Latches.{number_of};
ghost use Rattle.cluster_core.specs.Pools.{IsServing};
ghost use Rattle.cluster_core.specs.Turns.{ActRuns, Begins, BeginsDeed, DeedRuns};

use crate::stages::Stage;
use page_pool::PagePool;
use redo_record::Plan;
use rm_base::{META_PAGE_ID, NodeId, PageId, SLOTS_PAGE_ID, WantOfMemory};
use statement_work::{Act, Deed, FixedPage};
use std::alloc::Global;

pub(crate) fn page_at(place: FixedPage) -> PageId
    ensures { result ≡ number_of place }
{
    match place {
        FixedPage::Meta => PageId::new(META_PAGE_ID).unwrap(),
        FixedPage::Slots => PageId::new(SLOTS_PAGE_ID).unwrap(),
    }
}

#[tactic(auto, using(crate::proofs::PoolLaws::fetch_begins))]
fn fetch_page<P: PagePool>(pool: &mut P, n: NodeId, page: PageId)
    requires serves { IsServing n (P.state pool.old) }
    requires free { ((P.state pool.old).node n).job ≡ Rests }
    ensures begins { BeginsFetch n page (P.state pool.old) (P.state pool.new) }
{
    let _begun = pool.fetch(n, page);
}

#[tactic(auto, using(crate::proofs::PoolLaws::plan_begins))]
fn run_plan<P: PagePool>(
    alloc: Global,
    pool: &mut P,
    n: NodeId,
    plan: Plan,
) -> Result<(), WantOfMemory>
    requires serves { IsServing n (P.state pool.old) }
    requires free { ((P.state pool.old).node n).job ≡ Rests }
    requires runs { IsRunnable (P.state pool.old).log.made plan }
    ensures begins { OnOk result (BeginsPlan n plan (P.state pool.old) (P.state pool.new)) }
{
    let _begun = pool.run(alloc, n, plan)?;
    Ok(())
}

fn begin_deed<P: PagePool>(
    alloc: Global,
    pool: &mut P,
    n: NodeId,
    deed: Deed,
) -> Result<Stage, WantOfMemory>
    requires serves { IsServing n (P.state pool.old) }
    requires free { ((P.state pool.old).node n).job ≡ Rests }
    requires runs { DeedRuns (P.state pool.old) deed }
    ensures begins { IfOk result (λ stage. BeginsDeed n deed (P.state pool.old) (P.state pool.new) stage) }
{
    match deed {
        Deed::Fetch(fetch) => {
            fetch_page(pool, n, fetch.page());
            Ok(Stage::Fetching(fetch))
        }
        Deed::FetchFixed(place) => {
            fetch_page(pool, n, page_at(place));
            Ok(Stage::FetchingFixed(place))
        }
        Deed::FetchSure(fetch) => {
            fetch_page(pool, n, fetch.page());
            Ok(Stage::FetchingSure(fetch))
        }
        Deed::Release(page) => Ok(Stage::Releasing(page)),
        Deed::Run(plan) => {
            run_plan(alloc, pool, n, plan)?;
            Ok(Stage::Running(false))
        }
        Deed::Stamp => Ok(Stage::Stamping),
        Deed::Append => Ok(Stage::Appending),
    }
}

/// Begins what an act of a worker is.
pub(crate) fn begin<P: PagePool>(
    alloc: Global,
    pool: &mut P,
    n: NodeId,
    act: Act,
) -> Result<Stage, WantOfMemory>
    requires serves { IsServing n (P.state pool.old) }
    requires free { ((P.state pool.old).node n).job ≡ Rests }
    requires runs { ActRuns (P.state pool.old) act }
    ensures begins { IfOk result (λ stage. Begins n act (P.state pool.old) (P.state pool.new) stage) }
{
    match act {
        Act::Do(deed) => begin_deed(alloc, pool, n, deed),
        Act::Reply(reply) => Ok(Stage::Replying(reply)),
        Act::Rest => Ok(Stage::Resting),
    }
}
