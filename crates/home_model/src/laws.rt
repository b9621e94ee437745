ghost use Rattle.std.specs.Prelude.{◌≡◌, ◌≢◌, ◌≤◌, ℕ, Bool, true, false, Some, None, List, max};
ghost use Rattle.home_model.specs.Latch.{Latch, Excludes, Without, MayExclude, may_share, free_latch, grant_s, grant_x, released};
ghost use Rattle.home_model.specs.Entry.{
  Entry,
  no_entry,
  registered,
  told_address,
  unregistered,
  invalidated,
  cleaned,
  kicked,
  dropped,
  raised,
  stays,
  swept,
};
ghost use Rattle.home_model.specs.Uses.{LatchCall, ChangesAll};

/// The laws of a latch. It does nothing when it is run.
#[tactic(auto, using(crate::proofs::Exclusion::always_excludes, crate::proofs::Exclusion::waits, crate::proofs::Exclusion::alone))]
pub fn latch_laws()
    // After any list of granted tries and releases it is free, held in S, or held in X by one node.
    ensures excludes { (calls : List LatchCall) (after : Latch) → ChangesAll calls free_latch after
        → Excludes after }

    // A granted try takes nothing from another node.
    ensures waits { (L : Latch) (n m : ℕ) → may_share L n ≡ true → L.exclusive ≡ Some m → m ≡ n }
    ensures alone { (L : Latch) (n m : ℕ) → MayExclude L n → L.exclusive ≡ Some m → m ≡ n }

    // Who is granted holds it.
    ensures in_s { (L : Latch) (n : ℕ) → (grant_s L n).shared n ≡ true }
    ensures in_x { (L : Latch) (n : ℕ) → (grant_x L n).exclusive ≡ Some n }

    // A release frees it of this node alone.
    ensures freed { (L : Latch) (n : ℕ) → Without (released L n) n }
    ensures others { (L : Latch) (n m : ℕ) → m ≢ n → (released L n).shared m ≡ L.shared m }
{}

/// The laws of an entry. It does nothing when it is run.
pub fn entry_laws()
    // Who registers has a reference, and the address that the answer tells; an address that is
    // there stays.
    ensures refers { (E : Entry) (w a n : ℕ) → (registered E w a n).refs n ≡ true }
    ensures told { (E : Entry) (w a n : ℕ)
        → (registered E w a n).address ≡ Some (told_address E a) }
    ensures stays { (E : Entry) (w a n b : ℕ) → E.there ≡ true → E.address ≡ Some b
        → (registered E w a n).address ≡ Some b }

    // `invalidate` makes nobody due that has no reference, and sets a floor of at least the LSN.
    ensures due { (E : Entry) (fresh : ℕ → Bool) (n m : ℕ) → (invalidated E fresh n).due m ≡ true
        → (E.refs m ≡ true) × (m ≢ n) }
    ensures floor { (E : Entry) (fresh : ℕ → Bool) (n : ℕ) → (E.lsn ≤ (invalidated E fresh n).floor)
        × (E.floor ≤ (invalidated E fresh n).floor) }
    ensures lost { (E : Entry) → (E.lsn ≤ (dropped E).floor) × ((dropped E).bit ≡ true) }

    // A node that was kicked, or that unregistered, has no reference.
    ensures kicked { (E : Entry) (n : ℕ) → ((kicked E n).refs n ≡ false)
        × ((kicked E n).due n ≡ false) × Without (kicked E n).latch n }
    ensures left { (E : Entry) (n : ℕ) → (unregistered E n).refs n ≡ false }

    // The watermark rises to what an entry knew.
    ensures watermark { (E : Entry) (w : ℕ) → (w ≤ raised E w) × (E.lsn ≤ raised E w)
        × (E.floor ≤ raised E w) }

    // What Sweep keeps has bit 0 and an LSN of at most the tail, and nobody refers to it.
    ensures swept { (E : Entry) (tail : ℕ) → (swept E tail).there ≡ true
        → ((swept E tail).bit ≡ false) × ((swept E tail).lsn ≤ tail) }
    ensures nobody { (E : Entry) (tail n : ℕ) → (swept E tail).refs n ≡ false }
{}
