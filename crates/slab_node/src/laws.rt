ghost use Rattle.std.specs.Prelude.{◌≡◌, ◌≢◌, ◌<◌, ◌≤◌, ℕ, true, false, length, replicate};
ghost use Rattle.page_image.specs.Image.{Image, unmade};
ghost use Rattle.node_model.specs.Slots.{Slots, address_number, died, empty_slots, written as memory_written};
ghost use Rattle.slab_node.specs.Slab.{SlabState, IsPart, written, crashed, restarted, spans};

/// The laws of slabs in one memory of slots by address. It does nothing when it is run.
#[tactic(auto, using(crate::proofs::Parts::write_part, crate::proofs::Parts::beside_part, crate::proofs::Parts::crash_part, crate::proofs::Parts::restart_part, crate::proofs::Parts::first_part))]
pub fn slab_laws()
    // A slab in its first incarnation with blank slots is a part of the memory at its start.
    ensures first { (S : SlabState) (n : ℕ) → S.incarnation ≡ 1 → S.up ≡ true
        → S.pages ≡ replicate n (unmade 0) → IsPart S empty_slots }

    // A write through a slab is a write of the memory at that address, so a read gives the last one.
    ensures write { (S : SlabState) (M : Slots) (s : ℕ) (image : Image) → IsPart S M → s < length S.pages
        → length S.pages ≤ 65536 → IsPart (written S s image) (memory_written M (address_number S.id S.incarnation s) image) }

    // A write at an address of another slab, or of an earlier incarnation, leaves it a part.
    ensures beside { (S : SlabState) (M : Slots) (a : ℕ) (image : Image) → IsPart S M
        → ((i s : ℕ) → S.incarnation ≤ i → s < length S.pages → address_number S.id i s ≢ a) → IsPart S (memory_written M a image) }

    // A crash loses the addresses of the slab's incarnation.
    ensures crash { (S : SlabState) (M : Slots) → IsPart S M → length S.pages ≤ 65536 → IsPart (crashed S) (died M (spans S)) }

    // A restart of a slab that is down changes nothing of the memory.
    ensures restart { (S : SlabState) (M : Slots) → IsPart S M → S.up ≡ false → IsPart (restarted S) M }
{}
