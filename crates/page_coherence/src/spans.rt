ghost use Rattle.std.specs.Prelude.{◌≡◌, ◌⊎◌, ℕ, Bool, false, List};
ghost use Rattle.page_coherence.specs.Page.{HasS};
ghost use Rattle.page_coherence.specs.Cluster.{State, Event, Event.Renew, Happens, Run, Reached};
ghost use Rattle.page_coherence.specs.Coherence.{Coherent};
ghost use Rattle.page_coherence.specs.Frame.{Extends, touches, is_tail, is_renewal, has_sweep, IsBare};

/// A page that an event does not touch is as it was, and stays coherent. It does nothing when it is
/// run.
#[tactic(auto, using(crate::proofs::Promises::same_page, crate::proofs::Promises::stays_coherent))]
pub fn frame_laws()
    ensures same { (e : Event) (s t : State) (p : ℕ) → Happens e s t → touches e p ≡ false
        → t.page p ≡ s.page p }
    ensures coherent { (e : Event) (s t : State) (p : ℕ) → Happens e s t → touches e p ≡ false
        → Coherent s.mode s.rw s.watermark (s.page p)
        → Coherent t.mode t.rw t.watermark (t.page p) }
{}

/// An event other than a Tail changes the history of a page only by an install: the RW, which holds
/// the page in X, puts an image in front. It does nothing when it is run.
#[tactic(auto, using(crate::proofs::Promises::installs, crate::proofs::Promises::stays_shared))]
pub fn install_laws()
    ensures held { (e : Event) (s t : State) → Reached s → Happens e s t → is_tail e ≡ false
        → (p : ℕ) → Extends s.rw (s.page p) (t.page p) }

    // So a page that some node holds in S does not change.
    ensures shared { (e : Event) (s t : State) → Reached s → Happens e s t → is_tail e ≡ false
        → (p n : ℕ) → HasS (s.page p) n → (t.page p).log ≡ (s.page p).log }
{}

/// What holds while the home is down, and from its renewal to the next Sweep. It does nothing when
/// it is run.
#[tactic(auto, using(crate::proofs::Promises::tables_stand, crate::proofs::Promises::bare_span))]
pub fn span_laws()
    // While the home is down its tables are as they stood when it went down.
    ensures stand { (e : Event) (s t : State) → s.home_up ≡ false → Happens e s t
        → is_renewal e ≡ false
        → (p : ℕ) → (t.page p).entry ≡ (s.page p).entry }

    // From a renewal to Sweep there is no entry, and no node has a copy, a page, a step or a call.
    ensures bare { (ds : ℕ → Bool) (s m t : State) (events : List Event) → Happens (Renew ds) s m
        → Run m events t
        → has_sweep events ≡ false → (p : ℕ) → IsBare (t.page p) }
{}
