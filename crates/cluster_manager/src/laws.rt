ghost use Rattle.std.specs.Prelude.{◌≡◌, ℕ, Bool, List, [], Some, None};
ghost use Rattle.slab_node.specs.Slab.{SlabState};
ghost use Rattle.home_model.specs.Entry.{no_entry, swept};
ghost use Rattle.home_tables.specs.Home.{HomeState, entry_at};
ghost use Rattle.rmem_calls.specs.Seating.{AreSeated};
ghost use Rattle.cluster_manager.specs.declared.steps.Step.{Step};
ghost use Rattle.cluster_manager.specs.declared.steps.Step.TheVariants.{Opened};
ghost use Rattle.cluster_manager.specs.declared.steps.Takeover.{Takeover};
ghost use Rattle.cluster_manager.specs.Freeing.{Frees, GoesAt};
ghost use Rattle.cluster_manager.specs.Takeover.{ManagerState, first_manager, MayTake, IsDue, Follows};
ghost use Rattle.cluster_manager.specs.Order.{Event, Run, IsInOrder};
ghost use Rattle.cluster_manager.specs.Samples.{takeover_events, takeover_steps, takeover_end};

/// The laws of the addresses of entries in a takeover and a renewal. It does nothing when it is run.
pub fn seating_laws()
    // After a sweep each address on a slab that is up is still one of its incarnation and of a slot that
    // is taken, and no two entries share an address.
    ensures sweep { (H H' : HomeState) (S S' : List SlabState) (tail : ℕ)
        → entry_at H' ≡ (λ p. swept (entry_at H p) tail) → Frees (GoesAt H tail) S S'
        → AreSeated H S → AreSeated H' S' }

    // So it is after a renewal, whatever the slabs are.
    ensures renewal { (H : HomeState) (S : List SlabState) → entry_at H ≡ (λ p. no_entry)
        → AreSeated H S }
{}

/// The laws of takeovers. It does nothing when it is run.
pub fn takeover_laws()
    // However steps, crashes and renewals follow each other, a node gets the writes only after all
    // steps of its takeover, in their order.
    ensures order { (events : List Event) (M : ManagerState) (steps : List Step) (n : ℕ)
        → Run events first_manager [] M steps → Follows M.takeover n Opened → IsInOrder steps }

    // While a takeover is under way no node has the writes.
    ensures alone { (events : List Event) (M : ManagerState) (steps : List Step) (t : Takeover)
        → Run events first_manager [] M steps → M.takeover ≡ Some t → M.writer ≡ None }

    // The step that is due of a node which may take the writes is one that it may do.
    ensures due { (M : ManagerState) (up : ℕ → Bool) (home : Bool) (n : ℕ) (step : Step)
        → MayTake M up home n → IsDue M.takeover up n step → Follows M.takeover n step }

    // A takeover comes to its last step.
    ensures sample { Run takeover_events first_manager [] takeover_end takeover_steps }
{}
