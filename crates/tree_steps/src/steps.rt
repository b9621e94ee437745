//! The groups of a log are steps of a tree.
ghost use Rattle.std.specs.Prelude.{◌≡◌, ◌≢◌, ◌+◌, ℕ, suc, List, ◌∷◌, ◌++◌, length, Contains, ◌≤◌, ◌<◌};
ghost use Rattle.std.specs.List.{AllByRecursion};
ghost use Rattle.page_image.specs.Meta.{IsMeta, page_count};
ghost use Rattle.page_image.specs.Image.{Image};
ghost use Rattle.page_image.specs.Rules.{IsImage};
ghost use Rattle.page_view.specs.declared.leaf.LeafItem.{LeafItem};
ghost use Rattle.redo_record.specs.declared.redo.Record.{Record};
ghost use Rattle.redo_record.specs.declared.redo.Group.{Group};
ghost use Rattle.redo_record.specs.Effect.{CountsFrom};
ghost use Rattle.redo_record.specs.declared.plans.Plan.{Plan};
ghost use Rattle.bplus_tree.specs.Tree.{Tree};
ghost use Rattle.tree_change.specs.Way.{IsWayTo};
ghost use Rattle.tree_change.specs.Places.{leaf_on, page_on};
ghost use Rattle.tree_change.specs.Effects.{pages_after, TouchesOnly, IsFresh};
ghost use Rattle.tree_change.specs.Changes.{insert_plan, update_plan, remove_plan, IsPut, with_root};
ghost use Rattle.tree_change.specs.Splits.{IsSplit, IsRootSplit};
ghost use Rattle.tree_timeline.specs.Types.{Key, Items, Pages, ItemsAt};
ghost use Rattle.tree_timeline.specs.Steps.{KeepsShape, Step, Splits, RootSplits};
ghost use Rattle.tree_timeline.specs.Timeline.{Timeline};
ghost use Rattle.tree_steps.specs.Groups.{FitsTree, FitsLeaf, IsElsewhere, left_at};

use rm_base::MAX_PAGE_ID;

/// The groups of a log are steps of a tree. It does nothing when it is run.
pub fn step_laws()
    // Records that put items into leaves of a tree and take them out, and others that touch no page
    // of the tree, keep its shape.
    ensures items { (pages : Pages) (root : ℕ) (items : Items) (tree : Tree pages root items)
        → (records : List Record) (lsn : ℕ) → AllByRecursion (FitsTree pages tree.nodes) records
        → KeepsShape pages (pages_after lsn records pages) tree.nodes }

    // So do those of a group that changes items of the leaf of a way, and beside it pages of no
    // tree: a row's change with its undo item, and the undoing of one.
    ensures row { (key : Key) (path : List Image) (w : IsWayTo key path)
        → (records : List Record) (lsn : ℕ)
        → AllByRecursion (FitsLeaf w.pages (leaf_on path).page) records
        → KeepsShape w.pages (pages_after lsn records w.pages) w.tree.nodes }

    // So do those of a group on pages that are of no tree: beginning, committing, freeing a slot.
    ensures elsewhere { (pages : Pages) (root : ℕ) (items : Items) (tree : Tree pages root items)
        → (records : List Record) (lsn : ℕ) → AllByRecursion (IsElsewhere pages) records
        → KeepsShape pages (pages_after lsn records pages) tree.nodes }

    // So do those of a group whose pages are none of this tree: any plan of another tree.
    ensures foreign { (pages : Pages) (root : ℕ) (items : Items) (tree : Tree pages root items)
        → (named : List ℕ) (records : List Record) (lsn : ℕ) → TouchesOnly named records
        → ((node : ℕ) → Contains tree.nodes node → AllByRecursion (λ page. page ≢ node) named)
        → KeepsShape pages (pages_after lsn records pages) tree.nodes }

    // The plans that change one item of a leaf keep the shape of the tree.
    ensures insert { (key : Key) (path : List Image) (w : IsWayTo key path)
        → (item : LeafItem) (lsn : ℕ) → KeepsShape w.pages
        (pages_after lsn (insert_plan (leaf_on path) item).records w.pages) w.tree.nodes }
    ensures update { (key : Key) (path : List Image) (w : IsWayTo key path)
        → (item : LeafItem) (lsn : ℕ) → KeepsShape w.pages
        (pages_after lsn (update_plan (leaf_on path) item).records w.pages) w.tree.nodes }
    ensures remove { (key : Key) (path : List Image) (w : IsWayTo key path) (lsn : ℕ)
        → KeepsShape w.pages
        (pages_after lsn (remove_plan (leaf_on path) key).records w.pages) w.tree.nodes }
    ensures put { (key : Key) (path : List Image) (w : IsWayTo key path)
        → (item : LeafItem) (plan : Plan) → IsPut (leaf_on path) item plan → (lsn : ℕ)
        → KeepsShape w.pages (pages_after lsn plan.records w.pages) w.tree.nodes }

    // So does a plan that puts an item and begins another tree.
    ensures begin { (key : Key) (path : List Image) (w : IsWayTo key path)
        → (item : LeafItem) (put : Plan) → IsPut (leaf_on path) item put
        → (meta : Image) → IsMeta meta → IsFresh w.pages meta (with_root put meta) → (lsn : ℕ)
        → KeepsShape w.pages (pages_after lsn (with_root put meta).records w.pages) w.tree.nodes }

    // A split of a page below the root is one, whichever change needs it: also the undoing of one.
    ensures split { (item : LeafItem) (path : List Image) (meta : Image) (plan : Plan) → IsMeta meta
        → IsSplit item path meta plan → page_count meta ≤ MAX_PAGE_ID
        → (w : IsWayTo item.key path) → IsFresh w.pages meta plan → (lsn : ℕ)
        → Splits w.pages (pages_after lsn plan.records w.pages) w.tree.nodes lsn }

    // So is a split of the root.
    ensures root_split { (key : Key) (path : List Image) (meta : Image) (plan : Plan) → IsMeta meta
        → IsRootSplit path meta plan → page_count meta + 1 ≤ MAX_PAGE_ID
        → IsImage (page_on path 0) → (page_on path 0).level < 8
        → (w : IsWayTo key path) → IsFresh w.pages meta plan → (lsn : ℕ)
        → RootSplits w.pages (pages_after lsn plan.records w.pages) w.root w.tree.nodes lsn }

    // The pages that a log leaves, LSN by LSN, are a timeline, where the tree stands at each and
    // each group is a step.
    ensures log { (log : List Group) (root from : ℕ) (items : ItemsAt) → CountsFrom 0 log
        → (trees : (t : ℕ) → Tree (left_at log from t) root (items t))
        → ((before : List Group) (group : Group) (behind : List Group)
        → log ≡ before ++ (group ∷ behind) → (t : ℕ) → from + t ≡ length before
        → Step (left_at log from t) (pages_after (from + suc t) group.records (left_at log from t))
        root (trees t).nodes (from + suc t))
        → Timeline (left_at log from) root from items }
{}
