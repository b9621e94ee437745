ghost use Rattle.std.specs.Prelude.{◌≡◌, ℕ, List, [], ◌∷◌, Contains};
ghost use Rattle.std.specs.List.{AllByRecursion};
ghost use Rattle.page_image.specs.Image.{Image};
ghost use Rattle.page_view.specs.Leaf.{HoldsLeaf};
ghost use Rattle.page_view.specs.Keys.{keys_of, Ascend};
ghost use Rattle.page_store.specs.Stored.{pages_of};
ghost use Rattle.page_store.specs.Opening.{opened};
ghost use Rattle.page_image.specs.Meta.{page_count};
ghost use Rattle.bplus_tree.specs.Forest.{Forest};

use rm_base::CATALOG_ROOT_PAGE_ID;

/// The laws of trees on the pages of a store. It does nothing when it is run.
pub fn forest_laws()
    // A new store has one tree, which is empty.
    ensures opened { Forest (pages_of opened) (CATALOG_ROOT_PAGE_ID ∷ []) (λ root. []) }

    // The items of a tree are leaf items, by ascending keys.
    ensures items { (pages : ℕ → Image) (roots : List ℕ) (items : ℕ → List (List ℕ)) → Forest pages roots items → (root : ℕ) → Contains roots root
        → AllByRecursion HoldsLeaf (items root) × Ascend (keys_of (items root)) }

    // The next page is no root.
    ensures fresh { (pages : ℕ → Image) (roots : List ℕ) (items : ℕ → List (List ℕ)) → Forest pages roots items → ¬ Contains roots (page_count (pages 0)) }
{}
