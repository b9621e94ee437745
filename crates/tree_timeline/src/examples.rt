//! The laws say something: a tree that splits while it is read, and three ways to go wrong.
ghost use Rattle.std.specs.Prelude.{◌≡◌, ℕ, [], ◌∷◌, Some, None, filter};
ghost use Rattle.bplus_tree.specs.Tree.{Tree};
ghost use Rattle.bplus_tree.specs.Walk.{in_range, start};
ghost use Rattle.tree_timeline.specs.Types.{Items};
ghost use Rattle.tree_timeline.specs.Ranges.{Covers};
ghost use Rattle.tree_timeline.specs.Timeline.{Timeline};
ghost use Rattle.tree_timeline.specs.Walks.{Walk, LightWalk, items_read};
ghost use Rattle.tree_timeline.specs.Searching.{Searches};
ghost use Rattle.tree_timeline.specs.Example.{item, whole, halved, unlinked, splitting, three_items, visit, across};
ghost use Rattle.tree_timeline.specs.Loose.{LooseReadLaw, AnyStepLaw};

/// A tree that splits while it is read. It does nothing when it is run.
pub fn example_laws()
    // The tree whose second leaf is split is a timeline. Then the range of the leaf ends at the
    // separator, and that of the new leaf begins there.
    ensures timeline { Timeline splitting 1 0 three_items }
    ensures before { Covers whole 1 0 3 (Some (2 ∷ [])) None }
    ensures halves { Covers halved 1 0 3 (Some (2 ∷ [])) (Some (3 ∷ []))
        × Covers halved 1 0 4 (Some (3 ∷ [])) None }

    // A walk of all keys reads the first leaf before the split and the others after it, and so does
    // a search. A read without latches begins at the root's image after the split.
    ensures walk { Walk splitting 1 None None 0 (visit 0 2) (visit 1 3 ∷ visit 1 4 ∷ []) }
    ensures light { LightWalk splitting 1 0 None None 0 1 (visit 1 2) (visit 1 3 ∷ visit 1 4 ∷ []) }
    ensures search { Searches splitting 0 (start 1 None None) 0
        (visit 0 1 ∷ visit 0 2 ∷ across) across }

    // They find each item once.
    ensures found { filter (in_range None None) (items_read splitting across)
        ≡ item 1 ∷ item 2 ∷ item 3 ∷ [] }
{}

/// Three ways to go wrong, each refuted by the tree of the example. It does nothing when it is run.
pub fn refuted_laws()
    // A read that lets the parent go before the child is held loses an item.
    ensures loose { ¬ LooseReadLaw }

    // A merge of two leaves leaves a tree at each time, but a page loses its range.
    ensures merge { ¬ AnyStepLaw }

    // After a split that keeps the page's old `next` no tree stands on the pages.
    ensures old_next { (items : Items) → ¬ Tree unlinked 1 items }
{}
