ghost use Rattle.std.specs.Prelude.{◌≤◌, ℕ, List, Option};
ghost use Rattle.page_image.specs.Image.{Image};
ghost use Rattle.bplus_tree.specs.Tree.{Tree};
ghost use Rattle.bplus_tree.specs.Found.{FindsLeaf, FindsRange};

use rm_base::MAX_PAGE_ID;

/// What searches find in a tree that stands, over pages that each answer under their numbers. It does
/// nothing when it is run.
#[tactic(auto, using(crate::proofs::Finding::finds_leaf, crate::proofs::Finding::finds_range))]
pub fn search_laws()
    // A descent to a key ends at the leaf whose range holds it.
    ensures leaf { (pages : ℕ → Image) (root : ℕ) (items : List (List ℕ)) (tree : Tree pages root items) (key : List ℕ)
        → FindsLeaf pages root items tree.level key }

    // A walk over a range finds exactly the items of the tree that are in it.
    ensures range { (pages : ℕ → Image) (root : ℕ) (items : List (List ℕ)) (tree : Tree pages root items) → root ≤ MAX_PAGE_ID
        → (low high : Option (List ℕ)) → FindsRange pages root items tree.nodes low high }
{}
