ghost use Rattle.std.specs.Prelude.{◌≡◌, ◌↔◌, ℕ, true};
ghost use Rattle.home_model.specs.Latch.{Excludes, MayExclude};
ghost use Rattle.page_latches.specs.Holding.{latch_of, lets_exclude};
ghost use Rattle.page_latches.specs.declared.latch.Holders.{Holders};

/// The laws of holders. It does nothing when it is run.
#[tactic(auto, using(crate::proofs::Excluding::always_apart, crate::proofs::Excluding::exclude_rule))]
pub fn holder_laws()
    // Whoever the holders are, none holds the latch in S while one holds it in X.
    ensures excludes { (holders : Holders) → Excludes (latch_of holders) }

    // The test of a try of X says what its rule says.
    ensures rule { (holders : Holders) (n : ℕ) → (lets_exclude holders n ≡ true) ↔ MayExclude (latch_of holders) n }
{}
