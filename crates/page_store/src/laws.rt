ghost use Rattle.std.specs.Prelude.{◌≡◌, ◌≤◌, ◌<◌, ℕ, List, drop};
ghost use Rattle.rm_base.specs.Fields.{number};
ghost use Rattle.page_image.specs.declared.kind.Kind.TheVariants.{Meta, Leaf};
ghost use Rattle.page_image.specs.Image.{unmade, made};
ghost use Rattle.redo_record.specs.declared.redo.Record.{Record};
ghost use Rattle.redo_record.specs.Effect.{CountsFrom, after_records, after_groups};
ghost use Rattle.page_store.specs.Stored.{Stored, groups_of, pages_of, next_lsn, with_group, all_kept, given_back};
ghost use Rattle.page_store.specs.Opening.{opened};

use rm_base::{CATALOG_ROOT_PAGE_ID, FIRST_FREE_PAGE_ID, META_PAGE_ID};

/// The laws of the pages that a log leaves. It does nothing when it is run.
#[tactic(auto, using(crate::proofs::StoredLaws::page_number, crate::proofs::StoredLaws::after_group, crate::proofs::StoredLaws::after_keep, crate::proofs::StoredLaws::after_give_back, crate::proofs::StoredLaws::page_bound))]
pub fn page_laws()
    ensures number { (s : Stored) (p : ℕ) → (pages_of s p).page ≡ p }
    ensures one_more { (s : Stored) (records : List Record) (p : ℕ) → pages_of (with_group s records) p ≡ after_records (next_lsn s) records (pages_of s p) }
    ensures all_kept { (s : Stored) (p : ℕ) → pages_of (all_kept s) p ≡ pages_of s p }
    ensures given_back { (s : Stored) (p : ℕ) → pages_of (given_back s) p ≡ after_groups s.kept (unmade p) }
    ensures bound { (s : Stored) (p : ℕ) → CountsFrom 0 (groups_of s) → (pages_of s p).lsn < next_lsn s }
{}

/// The pages that the opening leaves. It does nothing when it is run.
#[tactic(auto, using(crate::proofs::OpeningLaws::opened_meta, crate::proofs::OpeningLaws::opened_count, crate::proofs::OpeningLaws::opened_root, crate::proofs::OpeningLaws::opened_unmade))]
pub fn opening_laws()
    ensures meta { (pages_of opened META_PAGE_ID).kind ≡ Meta }
    ensures count { number 4 (drop 4 (pages_of opened META_PAGE_ID).body) ≡ FIRST_FREE_PAGE_ID }
    ensures root { pages_of opened CATALOG_ROOT_PAGE_ID ≡ made (unmade CATALOG_ROOT_PAGE_ID) Leaf 0 1 }
    ensures others { (p : ℕ) → FIRST_FREE_PAGE_ID ≤ p → pages_of opened p ≡ unmade p }
{}
