//! What a read finds in a tree that changes while its pages are read.
ghost use Rattle.std.specs.Prelude.{◌≡◌, ◌≤◌, ℕ, List, [], ◌∷◌, ◌++◌};
ghost use Rattle.bplus_tree.specs.declared.want.Want.TheVariants.{Finished};
ghost use Rattle.bplus_tree.specs.Walk.{start};
ghost use Rattle.tree_timeline.specs.Types.{Bound, PagesAt, ItemsAt};
ghost use Rattle.tree_timeline.specs.Timeline.{Timeline};
ghost use Rattle.tree_timeline.specs.Walks.{Visit, Walk, LightWalk, last_of};
ghost use Rattle.tree_timeline.specs.Found.{FindsEach, SearchFinds};
ghost use Rattle.tree_timeline.specs.Searching.{Searches, read_by};
ghost use Rattle.tree_timeline.specs.Progress.{Progress, begin, Tells, ComesTo};

use rm_base::MAX_PAGE_ID;

/// What a read finds in a tree that changes while its pages are read. It does nothing when it is
/// run.
pub fn read_laws()
    // A descent that holds each page until the child is read, and a walk from leaf to leaf that
    // holds nothing in between, find for each key of the range the items that the tree had for it
    // at one time of the read.
    ensures latched { (at : PagesAt) (root from : ℕ) (items : ItemsAt)
        → Timeline at root from items
        → (low high : Bound) (t : ℕ) (first : Visit) (rest : List Visit)
        → Walk at root low high t first rest
        → FindsEach at (first ∷ rest) items low high t (last_of first rest).time }

    // So does a read that holds nothing at all, where no child on its way down changed its
    // structure after the start.
    ensures light { (at : PagesAt) (root from : ℕ) (items : ItemsAt)
        → Timeline at root from items
        → (low high : Bound) (t top : ℕ) (first : Visit) (rest : List Visit)
        → LightWalk at root from low high t top first rest
        → FindsEach at (first ∷ rest) items low high t (last_of first rest).time }

    // So does each run of a search that is told of images of different times, where each page on
    // the way down stays until the next one is told, or the next one has an old structure number.
    // It ends only where the range does.
    ensures search { (at : PagesAt) (root from : ℕ) (items : ItemsAt)
        → Timeline at root from items → root ≤ MAX_PAGE_ID
        → (low high : Bound) (t : ℕ) (visits reads : List Visit)
        → Searches at from (start root low high) t visits reads
        → SearchFinds at reads items low high t }

    // A search that has come so far comes on by each telling; and once it wants no more, it has
    // found.
    ensures more { (at : PagesAt) (from : ℕ) (old : Progress) (visits reads : List Visit)
        → (new : Progress)
        → ComesTo at from old visits reads new
        → (told : Visit) (next : Progress) → Tells at from new told next
        → ComesTo at from old (visits ++ told ∷ []) (reads ++ read_by new.search.want told) next }
    ensures finished { (at : PagesAt) (root from : ℕ) (items : ItemsAt)
        → Timeline at root from items → root ≤ MAX_PAGE_ID
        → (low high : Bound) (t : ℕ) (visits reads : List Visit) (new : Progress)
        → ComesTo at from (begin root low high t) visits reads new → new.search.want ≡ Finished
        → SearchFinds at reads items low high t }
{}
