//! What a tree keeps of the ranges of its pages while it changes.
ghost use Rattle.std.specs.Prelude.{◌≡◌, ◌≢◌, ◌≤◌, ◌<◌, ◌+◌, ℕ, suc, true, None};
ghost use Rattle.bplus_tree.specs.Tree.{NotBelow, Below, is_leaf};
ghost use Rattle.bplus_tree.specs.Walk.{LeadsTo};
ghost use Rattle.tree_timeline.specs.Types.{Key, Bound, PagesAt, ItemsAt};
ghost use Rattle.tree_timeline.specs.Ranges.{Covers, StandsFor, Remains, BeginsAt};
ghost use Rattle.tree_timeline.specs.Timeline.{Timeline, Unchanged};
ghost use Rattle.tree_timeline.specs.Found.{of_key};

/// What a tree keeps of the ranges of its pages while it changes. It does nothing when it is run.
pub fn range_laws()
    // A page other than the root stays in the tree for ever, at its height and from its low bound
    // on. Its high bound only falls.
    ensures stays { (at : PagesAt) (root from : ℕ) (items : ItemsAt)
        → Timeline at root from items
        → (t u tall page : ℕ) (low high : Bound) → Covers (at t) root tall page low high
        → page ≢ root → t ≤ u
        → Remains (at u) root tall page low high }

    // So a leaf other than the root stays a leaf.
    ensures leaf { (at : PagesAt) (root from : ℕ) (items : ItemsAt)
        → Timeline at root from items
        → (t u page : ℕ) (low high : Bound) → Covers (at t) root 0 page low high
        → page ≢ root → t ≤ u
        → is_leaf (at u page).kind ≡ true }

    // A page whose image stays keeps its range, the root too.
    ensures unchanged { (at : PagesAt) (root from : ℕ) (items : ItemsAt)
        → Timeline at root from items
        → (t u tall page : ℕ) (low high : Bound) → Covers (at t) root tall page low high
        → t ≤ u → Unchanged at page t u
        → Covers (at u) root tall page low high }

    // So does a page whose structure number is, later, of no later time.
    ensures structure { (at : PagesAt) (root from : ℕ) (items : ItemsAt)
        → Timeline at root from items
        → (t u tall page : ℕ) (low high : Bound) → Covers (at t) root tall page low high
        → t ≤ u → (at u page).structure ≤ from + t
        → Covers (at u) root tall page low high }

    // The leaf that a leaf names begins where this one ends, then and at every later time.
    ensures next { (at : PagesAt) (root from : ℕ) (items : ItemsAt)
        → Timeline at root from items
        → (t u leaf : ℕ) (low high : Bound) → Covers (at t) root 0 leaf low high
        → 0 < (at t leaf).next → t ≤ u
        → BeginsAt (at u) root (at t leaf).next high }

    // A leaf that names none ends the tree.
    ensures last { (at : PagesAt) (root from : ℕ) (items : ItemsAt)
        → Timeline at root from items
        → (t leaf : ℕ) (low high : Bound) → Covers (at t) root 0 leaf low high
        → (at t leaf).next ≡ 0
        → high ≡ None }

    // At one time a page has one range.
    ensures one { (at : PagesAt) (root from : ℕ) (items : ItemsAt)
        → Timeline at root from items
        → (t tall page : ℕ) (low high low' high' : Bound)
        → Covers (at t) root tall page low high → Covers (at t) root tall page low' high'
        → (low ≡ low') × (high ≡ high') }

    // The child of an inner page for a key of its range stands for a range with the key.
    ensures child { (at : PagesAt) (root from : ℕ) (items : ItemsAt)
        → Timeline at root from items
        → (t tall page child : ℕ) (low high : Bound) (key : Key)
        → Covers (at t) root (suc tall) page low high → NotBelow low key → Below high key
        → LeadsTo (at t page) key child
        → StandsFor (at t) root tall child key }

    // The items of the tree with a key of a leaf's range are those of the leaf.
    ensures items { (at : PagesAt) (root from : ℕ) (items : ItemsAt)
        → Timeline at root from items
        → (t leaf : ℕ) (low high : Bound) (key : Key)
        → Covers (at t) root 0 leaf low high → NotBelow low key → Below high key
        → of_key key (items t) ≡ of_key key (at t leaf).items }
{}
