ghost use Rattle.std.specs.Prelude.{◌≡◌, ℕ};
ghost use Rattle.page_coherence.specs.Cluster.{State};
ghost use Rattle.page_coherence.specs.Runs.{leaf_at, HasFetched};

/// That the laws speak of something: two states that are reached, by lists of events whose every
/// step is computed. It does nothing when it is run.
#[tactic(auto, using(crate::proofs::PlanRun::fetched, crate::proofs::FetchRun::fetched_again))]
pub fn run_laws()
    // A node fetches what the RW made and changed by a plan.
    ensures fetched { (t : State) × HasFetched t 1 (leaf_at 3) }

    // The RW dies after its next install, which is lost; node 1 takes over, and node 2 fetches the
    // page.
    ensures taken_over { (t : State) × HasFetched t 2 (leaf_at 3) × (t.rw ≡ 1) }
{}
