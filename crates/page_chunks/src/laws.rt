ghost use Rattle.std.specs.Prelude.{◌≡◌, ◌+◌, ◌++◌, ℕ, List, length, map};
ghost use Rattle.redo_record.specs.declared.redo.Group.{Group};
ghost use Rattle.redo_record.specs.Effect.{CountsFrom};
ghost use Rattle.page_chunks.specs.Chunk.{Chunk, InChunk, HasGot, skipped, PassBy, answer_of, answer_by};
ghost use Rattle.page_chunks.specs.Moves.{Move, ship, Runs, shipped};

#[tactic(auto, using(crate::proofs::SkipLaws::skips_run))]
/// The laws of a page chunk, over any list of ships and folds. It does nothing when it is run.
pub fn chunk_laws()
    // It has got the groups that it had, and then those that were shipped, in order.
    ensures got { (start end : Chunk) (groups : List Group) (moves : List Move) → HasGot start groups → Runs start moves end
        → HasGot end (groups ++ shipped moves) }

    // To pass over groups without a record for its pages is to be shipped them one after the other.
    ensures skips { (chunk : Chunk) (groups more : List Group) → HasGot chunk groups → CountsFrom (length groups) more
        → PassBy chunk more → Runs chunk (map ship more) (skipped chunk (length groups + length more)) }

    // So it answers with the page that the log leaves, and with NotYet exactly where groups are wanting.
    ensures answers { (chunk : Chunk) (groups : List Group) (p floor : ℕ) → HasGot chunk groups → InChunk chunk p
        → answer_of chunk p floor ≡ answer_by groups p floor }
{}
