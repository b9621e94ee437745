ghost use Rattle.std.specs.Prelude.{◌≡◌, ℕ, Bool, true, false, Some};
ghost use Rattle.page_coherence.specs.Cluster.{State, Reached};
ghost use Rattle.page_coherence.specs.Coherence.{Coherent, OneMemory};

/// Coherence and the latch law, over every list of events. It does nothing when it is run.
#[tactic(auto, using(crate::proofs::Promises::coherent, crate::proofs::Promises::one_memory, crate::proofs::Promises::reads))]
pub fn coherence_laws()
    // Each page is coherent, and its latch excludes.
    ensures coherent { (t : State) → Reached t → (p : ℕ)
        → Coherent t.mode t.rw t.watermark (t.page p) }

    // The slots of all pages are one memory, of which no two entries share an address.
    ensures memory { (t : State) → Reached t → OneMemory t.slots t.page }

    // What a node reads at the address that it keeps is what the page's slot holds.
    ensures read { (t : State) → Reached t → (p n a : ℕ) → ((t.page p).node n).up ≡ true
        → ((t.page p).node n).address ≡ Some a → t.slots.dead a ≡ false
        → (t.page p).slot ≡ t.slots.holds a }
{}
