//! A node's next act at the pool.
ghost use Rattle.std.specs.Prelude.{◌≡◌, IfOk, OnOk, IsSome, true, false};
ghost use Rattle.page_pool.specs.Events.{outcome_of};
ghost use Rattle.page_pool.specs.Nodes.{is_busy};
ghost use Rattle.cluster_core.specs.Pools.{Acts, IsServing, end_in, slots_in, slots_met};

use page_pool::{How, Obstacle, Outcome, PagePool, PoolAnswer, PoolEvent};
use rm_base::{NodeId, WantOfMemory};
use std::alloc::Global;

fn outcome_in(answer: PoolAnswer) -> Option<Outcome>
    ensures { result ≡ outcome_of answer }
{
    match answer {
        PoolAnswer::Did(outcome) => Some(outcome),
        PoolAnswer::Accepted(_, outcome) => Some(outcome),
        PoolAnswer::Done => None,
        PoolAnswer::Refused => None,
    }
}

pub(crate) fn end_in(outcome: &Option<Outcome>) -> Option<u64>
    ensures { result ≡ end_in outcome.now }
{
    match outcome {
        Some(Outcome::Installed(end)) => Some(*end),
        _ => None,
    }
}

pub(crate) fn slots_in(outcome: &Option<Outcome>) -> Option<u32>
    ensures { result ≡ slots_in outcome.now }
{
    match outcome {
        Some(Outcome::Met(obstacle)) => full_in(obstacle),
        _ => None,
    }
}

fn full_in(obstacle: &Obstacle) -> Option<u32>
    ensures { result ≡ slots_met obstacle.now }
{
    match obstacle {
        Obstacle::PoolFull(slots) => Some(*slots),
        _ => None,
    }
}

/// The node does its next act.
#[tactic(auto, using(crate::proofs::PoolLaws::step_serves, crate::proofs::PoolLaws::acted))]
pub(crate) fn act<P: PagePool>(
    alloc: Global,
    pool: &mut P,
    n: NodeId,
) -> Result<Option<Outcome>, WantOfMemory>
    requires serves { IsServing n (P.state pool.old) }
    requires acts { IsSome ((P.state pool.old).node n).next }
    ensures acts { IfOk result (λ outcome. Acts n outcome (P.state pool.old) (P.state pool.new)) }
    ensures serves { OnOk result (IsServing n (P.state pool.new)) }
{
    let Some(action) = pool.next(n) else {
        unreachable!()
    };
    let answer = pool.step(alloc, &PoolEvent::Act(n, action, How::Made))?;
    Ok(outcome_in(answer))
}
