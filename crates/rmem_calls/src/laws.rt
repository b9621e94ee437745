ghost use Rattle.std.specs.Prelude.{◌≡◌, ◌≢◌, ◌<◌, ℕ, false, List, [], Some, length, slice_index, slice_index_or};
ghost use Rattle.rm_base.specs.declared.places.Addr.{Addr};
ghost use Rattle.slab_node.specs.Slab.{SlabState};
ghost use Rattle.slab_node.specs.Slabs.{AreSlabs, IsLeastSlot, crashed_at, restarted_at};
ghost use Rattle.home_model.specs.Entry.{Entry as HomeEntry, invalidated};
ghost use Rattle.page_latches.specs.Set.{has};
ghost use Rattle.home_tables.specs.Table.{address_number};
ghost use Rattle.home_tables.specs.Home.{HomeState, entry_at};
ghost use Rattle.home_tables.specs.Losing.{AllBecome, kept_from, lost_on};
ghost use Rattle.message_network.specs.declared.calls.Reply.{Reply};
ghost use Rattle.rmem_calls.specs.Registering.{RegisterAnswers};
ghost use Rattle.rmem_calls.specs.Invalidating.{invalidated_all, due_pairs, is_among, AreApart};
ghost use Rattle.rmem_calls.specs.Seating.{AreSeated, slab_in};

/// The laws of the addresses of entries. It does nothing when it is run.
#[tactic(auto, using(crate::proofs::SeatingLemmas::keeps_seated, crate::proofs::SeatingLemmas::unused, crate::proofs::SeatingLemmas::fewer_seated, crate::proofs::SeatingLemmas::crash_seated, crate::proofs::SeatingLemmas::restart_seated))]
pub fn seating_laws()
    // `register` keeps each address on a live slab one of its incarnation and of a slot that is taken,
    // and no two entries at one address.
    ensures kept { (H H' : HomeState) (S S' : List SlabState) (n p : ℕ) (reply : Reply) → AreSlabs S
        → AreSeated H S → RegisterAnswers H H' S S' n p reply → AreSeated H' S' }

    // The free slot that a page takes is no entry's.
    ensures free { (H : HomeState) (S : List SlabState) (a : Addr) → AreSlabs S → AreSeated H S
        → IsLeastSlot S a → (q : ℕ) → (entry_at H q).address ≢ Some (address_number a) }

    // So does every call after which each page has at most the address that it had.
    ensures fewer { (H H' : HomeState) (S : List SlabState) → ((q x : ℕ)
        → (entry_at H' q).address ≡ Some x → (entry_at H q).address ≡ Some x)
        → AreSeated H S → AreSeated H' S }

    // So do a slab's crash, and its restart where no entry has an address there.
    ensures crash { (H : HomeState) (S : List SlabState) (k : ℕ) → k < length S → AreSeated H S
        → AreSeated H (crashed_at S k) }
    ensures restart { (H : HomeState) (S : List SlabState) (k : ℕ) → k < length S
        → ((p x : ℕ) → (entry_at H p).address ≡ Some x → slab_in x ≢ k) → AreSeated H S
        → AreSeated H (restarted_at S k) }

    // So do a kick of a node and a drop of a slab. After the drop no entry has an address on the slab,
    // as its restart asks, and each address elsewhere stays.
    ensures kick { (H H' : HomeState) (S : List SlabState) (n : ℕ) → AllBecome H H' (kept_from n)
        → AreSeated H S → AreSeated H' S }
    ensures drop { (H H' : HomeState) (S : List SlabState) (k : ℕ) → AllBecome H H' (lost_on k)
        → AreSeated H S → AreSeated H' S }
    ensures empty { (H H' : HomeState) (k : ℕ) → AllBecome H H' (lost_on k)
        → (p x : ℕ) → (entry_at H' p).address ≡ Some x → slab_in x ≢ k }
    ensures elsewhere { (H H' : HomeState) (k : ℕ) → AllBecome H H' (lost_on k)
        → (p x : ℕ) → (entry_at H p).address ≡ Some x → slab_in x ≢ k
        → (entry_at H' p).address ≡ Some x }
{}

/// The laws of pages that are invalidated together. It does nothing when it is run.
#[tactic(auto, using(crate::proofs::EachPage::each_changes, crate::proofs::EachPage::others_stay, crate::proofs::EachPage::none_due))]
pub fn invalidate_laws()
    // Where the pages differ, each is invalidated for the nodes that stand beside it.
    ensures each { (E : ℕ → HomeEntry) (n : ℕ) (pages : List ℕ) (clear : List (List ℕ)) (i : ℕ)
        → AreApart pages → length clear ≡ length pages → i < length pages
        → invalidated_all E n pages clear (slice_index pages i)
        ≡ invalidated (E (slice_index pages i)) (has (slice_index_or clear i [])) n }

    // Every other page stays.
    ensures others { (E : ℕ → HomeEntry) (n : ℕ) (pages : List ℕ) (clear : List (List ℕ)) (q : ℕ)
        → is_among q pages ≡ false → invalidated_all E n pages clear q ≡ E q }

    // Where no pair is due, which is when the answer is Done, no node is due at any of the pages.
    ensures done { (H : HomeState) (pages : List ℕ) (i m : ℕ) → due_pairs H pages ≡ 0
        → i < length pages → (entry_at H (slice_index pages i)).due m ≡ false }
{}
