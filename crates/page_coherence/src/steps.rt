ghost use Rattle.std.specs.Prelude.{◌≡◌, ℕ, List};
ghost use Rattle.page_coherence.specs.Page.{Page};
ghost use Rattle.page_coherence.specs.Mode.{Mode.Normal};
ghost use Rattle.page_coherence.specs.Moves.{Move, Moves};
ghost use Rattle.page_coherence.specs.Cluster.{State, Event, Happens, Run, Reached};
ghost use Rattle.page_coherence.specs.Coherence.{Coherent};
ghost use Rattle.page_coherence.specs.Invariant.{Holds};
ghost use Rattle.page_coherence.specs.AllPages.{AllHold};

/// What a proof about the pool carries from event to event: the invariant of each page and of the
/// memory of slots. It does nothing when it is run.
#[tactic(auto, using(crate::proofs::EachMove::keeps, crate::proofs::EveryEvent::step_holds, crate::proofs::EveryEvent::reached_holds, crate::proofs::EveryEvent::reached_on, crate::proofs::Promises::shows))]
pub fn step_laws()
    // Each move at a page keeps what holds of the page.
    ensures moves { (r w : ℕ) (P Q : Page) (n : ℕ) (move : Move) → Holds Normal r w P
        → Moves r w n move P Q
        → Holds Normal r w Q }

    // Each event keeps what holds of the cluster, and it holds in every state that is reached.
    ensures events { (e : Event) (s t : State) → Happens e s t → AllHold s → AllHold t }
    ensures reached { (t : State) → Reached t → AllHold t }

    // What goes on from a state that is reached is reached.
    ensures on { (s t : State) (events : List Event) → Reached s → Run s events t → Reached t }

    // It implies what is promised of a page.
    ensures coherent { (t : State) → AllHold t → (p : ℕ)
        → Coherent t.mode t.rw t.watermark (t.page p) }
{}
