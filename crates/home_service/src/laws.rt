ghost use Rattle.std.specs.Prelude.{◌≡◌, ◌<◌, true, false, Some, ℕ, List, length, slice_get, slice_index};
ghost use Rattle.rm_base.specs.declared.places.Addr.{Addr};
ghost use Rattle.page_image.specs.Image.{Image};
ghost use Rattle.call_model.specs.Callers.{Label};
ghost use Rattle.call_model.specs.Stages.{Effect.Handles as HandlesCall};
ghost use Rattle.message_network.specs.declared.calls.Reply.{Reply};
ghost use Rattle.message_network.specs.declared.calls.Reply.TheVariants.{PoolFull};
ghost use Rattle.home_model.specs.Latch.{may_share, MayExclude};
ghost use Rattle.home_model.specs.Entry.{Entry as HomeEntry};
ghost use Rattle.page_latches.specs.declared.latch.Mode.{Mode};
ghost use Rattle.page_latches.specs.declared.latch.Mode.TheVariants.{S as Shares, X as Excludes};
ghost use Rattle.page_latches.specs.declared.latch.Latch.TheVariants.{Granted};
ghost use Rattle.slab_node.specs.Slabs.{AreSlabs, slab_at, IsSlotOf, wrote_at};
ghost use Rattle.node_model.specs.Slots.{written as memory_written};
ghost use Rattle.rmem_calls.specs.Registering.{Joins, TakesFree, TakesGiven, TellsEntry, Refuses};
ghost use Rattle.rmem_calls.specs.Invalidating.{AreApart};
ghost use Rattle.rmem_calls.specs.Seating.{AreSeated};
ghost use Rattle.page_coherence.specs.Mode.{Mode.Normal};
ghost use Rattle.home_tables.specs.Table.{address_number};
ghost use Rattle.home_tables.specs.Access.{taken_by};
ghost use Rattle.home_tables.specs.Home.{entry_at, ChangesAt};
ghost use Rattle.home_tables.specs.Trying.{Tries};
ghost use Rattle.page_coherence.specs.Page.{Page, set_entry};
ghost use Rattle.page_coherence.specs.Moves.{handled_unregister, handled_invalidate};
ghost use Rattle.page_coherence.specs.Cluster.{State as Pages, Event.Remove, Happens as PagesDo};
ghost use Rattle.pool_laws.specs.Calls.{HomeCall.RegisterPage, HomeCall.UnregisterPage, HomeCall.InvalidatePages, only};
ghost use Rattle.pool_laws.specs.Serving.{at_pages, Serves};
ghost use Rattle.home_service.specs.HomeSide.{HomeSide};
ghost use Rattle.home_service.specs.Serving.{HandlesUnregister, HandlesInvalidate, OnlyHome};
ghost use Rattle.home_service.specs.Joining.{Sees, AreClear, among, with_page, without_page, handled, answer_as, is_done};

/// The calls that the home handles are the pool's. It does nothing when it is run.
pub fn call_laws()
    // The pages then have the entries that the home has, and no other page has changed.
    ensures unregister { (s : Pages) (S T : HomeSide) (l : Label) (p : ℕ) (r : Reply) → Sees s S
        → HandlesUnregister l p S r T
        → Serves (HandlesCall l.node (UnregisterPage p) (answer_as r)) s
        (at_pages (only p) (λ P. handled_unregister P l.node) s)
        × Sees (at_pages (only p) (λ P. handled_unregister P l.node) s) T }

    // `invalidate` of pages that differ and have entries, beside which the nodes stand whose local bit is
    // not set.
    ensures invalidate { (s : Pages) (S T : HomeSide) (l : Label) (pages : List ℕ)
        (clear : List (List ℕ)) (r : Reply) → Sees s S → AreApart pages → AreClear s pages clear
        → ((i : ℕ) → i < length pages → (entry_at S.home (slice_index pages i)).there ≡ true)
        → HandlesInvalidate l pages clear S r T
        → Serves (HandlesCall l.node (InvalidatePages (among pages)) (answer_as r)) s
        (at_pages (among pages) (λ P. handled_invalidate P l.node (is_done r)) s)
        × Sees (at_pages (among pages) (λ P. handled_invalidate P l.node (is_done r)) s) T }

    // `register` of a page that has its slot, and of one that takes a free slot, which no entry has and
    // whose slab is up.
    ensures joins { (s : Pages) (S T : HomeSide) (n p : ℕ) (r : Reply) → Sees s S
        → Joins S.home T.home S.slabs T.slabs n p → TellsEntry T.home p r
        → Serves (HandlesCall n (RegisterPage p) (answer_as r)) s (handled s p 0 n)
        × Sees (handled s p 0 n) T }
    ensures free { (s : Pages) (S T : HomeSide) (n p : ℕ) (a : Addr) (r : Reply) → Sees s S → AreSlabs S.slabs
        → AreSeated S.home S.slabs → TakesFree S.home T.home S.slabs T.slabs n p a → TellsEntry T.home p r
        → Serves (HandlesCall n (RegisterPage p) (answer_as r)) s (handled s p (address_number a) n)
        × Sees (handled s p (address_number a) n) T }

    // Where a page is given away for its slot, its entry is removed first.
    ensures given { (s : Pages) (S T : HomeSide) (n p given : ℕ) (a : Addr) (r : Reply) → Sees s S
        → AreSlabs S.slabs → AreSeated S.home S.slabs → s.mode ≡ Normal → s.home_up ≡ true
        → IsSlotOf S.slabs a
        → TakesGiven S.home T.home S.slabs T.slabs n p given a → TellsEntry T.home p r
        → PagesDo (Remove given) s (without_page s given)
        × Serves (HandlesCall n (RegisterPage p) (answer_as r)) (without_page s given)
        (handled (without_page s given) p (address_number a) n)
        × Sees (handled (without_page s given) p (address_number a) n) T }

    // A full pool changes nothing.
    ensures full { (s : Pages) (S T : HomeSide) (n p count : ℕ) → Sees s S
        → Refuses S.home T.home S.slabs T.slabs p count
        → Serves (HandlesCall n (RegisterPage p) (answer_as (PoolFull count))) s s × Sees s T }
{}

/// An access to the home changes the entry of one page as the pool's move does, and no other. It does
/// nothing when it is run.
pub fn access_laws()
    // `release`, `clean` and a turn of the home, and whatever else that move does to the page.
    ensures entry { (s : Pages) (S T : HomeSide) (p : ℕ) (f : HomeEntry → HomeEntry) (Q : Page) → Sees s S
        → OnlyHome S T → ChangesAt S.home T.home p f → (entry_at S.home p).there ≡ true
        → Q.entry ≡ f (s.page p).entry → Sees (with_page s p Q) T }

    // A try of the latch is granted by the move's rule.
    ensures latch { (s : Pages) (S T : HomeSide) (p n : ℕ) (mode : Mode) → Sees s S → OnlyHome S T
        → Tries S.home T.home p n mode Granted
        → Sees (with_page s p (set_entry (s.page p) (taken_by mode (s.page p).entry n))) T }
    ensures share { (s : Pages) (S T : HomeSide) (p n : ℕ) → Sees s S → Tries S.home T.home p n Shares Granted
        → may_share (s.page p).entry.latch n ≡ true }
    ensures exclude { (s : Pages) (S T : HomeSide) (p n : ℕ) → Sees s S
        → Tries S.home T.home p n Excludes Granted → MayExclude (s.page p).entry.latch n }

    // What is read at an address is what the pool's slots hold there, and the address is not lost.
    ensures read { (s : Pages) (S : HomeSide) (a : Addr) (image : Image) → Sees s S → AreSlabs S.slabs
        → IsSlotOf S.slabs a → slice_get (slab_at S.slabs a.slab).pages a.slot ≡ Some image
        → (s.slots.holds (address_number a) ≡ image) × (s.slots.dead (address_number a) ≡ false) }

    // A write changes the pool's slot at that address and no other.
    ensures write { (s : Pages) (S T : HomeSide) (a : Addr) (image : Image) → Sees s S → AreSlabs S.slabs
        → IsSlotOf S.slabs a → T ≡ record S { slabs = wrote_at S.slabs a image }
        → Sees (record s { slots = memory_written s.slots (address_number a) image }) T }
{}
