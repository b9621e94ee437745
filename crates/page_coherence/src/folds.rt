ghost use Rattle.std.specs.Prelude.{◌≡◌, ◌++◌, ◌∷◌, ℕ, List, []};
ghost use Rattle.page_image.specs.Image.{unmade};
ghost use Rattle.redo_record.specs.declared.redo.Group.{Group};
ghost use Rattle.redo_record.specs.Effect.{after_groups, up_to, page_at, last, Ascends};
ghost use Rattle.page_coherence.specs.History.{current, image_at, cut_to};
ghost use Rattle.page_coherence.specs.Fold.{grown, history_of};

/// The history of a page in a log, and the page that the log leaves. It does nothing when it is
/// run.
#[tactic(auto, using(crate::proofs::Folding::folds, crate::proofs::Folding::folds_at, crate::proofs::Folding::lsn_of, crate::proofs::Folding::grows, crate::proofs::Folding::cuts))]
pub fn history_laws()
    // The current image is the page after all groups, and its LSN is that of the last with a record
    // for it.
    ensures fold { (p : ℕ) (groups : List Group)
        → current p (history_of p groups) ≡ after_groups groups (unmade p) }
    ensures lsn { (p : ℕ) (groups : List Group)
        → (current p (history_of p groups)).lsn ≡ last groups p }

    // The image at an LSN is the page after the groups up to it; a Tail leaves the history of the
    // groups up to it.
    ensures at { (p n : ℕ) (groups : List Group) → Ascends 0 groups
        → image_at p (history_of p groups) n ≡ page_at groups p n }
    ensures tail { (p n : ℕ) (groups : List Group) → Ascends 0 groups
        → cut_to n (history_of p groups) ≡ history_of p (up_to n groups) }

    // One group more makes the history grow by at most one image.
    ensures grows { (p : ℕ) (groups : List Group) (g : Group)
        → history_of p (groups ++ g ∷ []) ≡ grown p (history_of p groups) g }
{}
