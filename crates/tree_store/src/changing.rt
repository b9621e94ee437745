//! Changes of one item of a tree: the splits that it needs, each one group, and then the change, one group.
ghost use Rattle.std.specs.Prelude.{◌≡◌, ◌≤◌, ◌<◌, ◌++◌, ◌∷◌, [], ℕ, List, length, Contains, IfOk, IfErr, IfSome, IsNone, OnOk, OnErr};
ghost use Rattle.bplus_tree.specs.Forest.{Forest, IsFull, IsRoot, with_tree};
ghost use Rattle.redo_record.specs.Effect.{RecordsApply};
ghost use Rattle.page_view.specs.Leaf.{IsLeaf, leaf_bytes};
ghost use Rattle.page_store.specs.Stored.{pages_of, with_group};
ghost use Rattle.page_image.specs.Meta.{page_count};
ghost use Rattle.tree_change.specs.Effects.{MakeGroup, with_item, without_item};
ghost use Rattle.tree_store.specs.Rooms.{HasRoom};

use crate::finding::{meta_page, way};
use page_store::PageStore;
use page_view::LeafItem;
use redo_record::{Path, Plan, TreeNo};
use rm_base::{Bytes, Items, MAX_PAGE_ID, PageId, TrxId, UndoPtr, WantOfMemory};
use std::alloc::Global;
use tree_change::{plan_put, plan_room, plan_take, plan_with_root};

/// Runs a plan's records as one group.
fn run_plan(alloc: Global, store: &mut PageStore, plan: Plan) -> Result<(), WantOfMemory>
    requires group { MakeGroup plan.records }
    requires apply { (lsn page : ℕ) → RecordsApply lsn plan.records (pages_of store.old page) }
    ensures ok { OnOk result (store.new ≡ with_group store.old plan.records) }
    ensures err { OnErr result (store.new ≡ store.old) }
{
    store.run(alloc, plan.records)
}

/// Splits the first page with too little room on the way of the item's change. Where there is none, the
/// way.
fn split_or_way(
    alloc: Global,
    store: &mut PageStore,
    root: PageId,
    item: &LeafItem,
) -> Result<Result<Option<Path>, TreeNo>, WantOfMemory>
    requires forest { IsRoot (pages_of store.old) root }
    requires item { IsLeaf item.now }
    ensures forest { (roots : List ℕ) (items : ℕ → List (List ℕ)) → Forest (pages_of store.old) roots items → Contains roots root
        → OnOk result (Forest (pages_of store.new) roots items) }
    ensures way { IfOk result (λ answer. IfOk answer (λ found. IfSome found (HasRoom (pages_of store.new) root item.now))) }
    ensures more { IfOk result (λ answer. IfOk answer (λ found. IsNone found → page_count (pages_of store.old 0) < page_count (pages_of store.new 0))) }
    ensures no { IfOk result (λ answer. IfErr answer (λ no. no ≡ TreeNo.SpaceFull)) }
    ensures full { IfOk result (λ answer. OnErr answer (IsFull (pages_of store.new) root)) }
    ensures kept { store.new.kept ≡ store.old.kept }
{
    let path = way(alloc, store, root, item.key.as_slice())?;
    match plan_room(alloc, &path, meta_page(store), item)? {
        None => Ok(Ok(Some(path))),
        Some(Ok(plan)) => {
            run_plan(alloc, store, plan)?;
            Ok(Ok(None))
        }
        Some(Err(no)) => Ok(Err(no)),
    }
}

/// Splits pages until none has too little room on the way of the item's change, and hands out the way.
/// SpaceFull where the pages for a split go past the last one, or the tree is as high as it can be; the
/// splits before stay.
pub fn make_room(
    alloc: Global,
    store: &mut PageStore,
    root: PageId,
    item: &LeafItem,
) -> Result<Result<Path, TreeNo>, WantOfMemory>
    requires forest { IsRoot (pages_of store.old) root }
    requires item { IsLeaf item.now }
    ensures forest { (roots : List ℕ) (items : ℕ → List (List ℕ)) → Forest (pages_of store.old) roots items → Contains roots root
        → OnOk result (Forest (pages_of store.new) roots items) }
    ensures room { IfOk result (λ answer. IfOk answer (HasRoom (pages_of store.new) root item.now)) }
    ensures no { IfOk result (λ answer. IfErr answer (λ no. no ≡ TreeNo.SpaceFull)) }
    ensures full { IfOk result (λ answer. OnErr answer (IsFull (pages_of store.new) root)) }
    ensures kept { store.new.kept ≡ store.old.kept }
{
    loop {
        match split_or_way(alloc, store, root, item)? {
            Ok(Some(path)) => return Ok(Ok(path)),
            Ok(None) => {}
            Err(no) => return Ok(Err(no)),
        }
    }
}

/// Puts the item into its leaf, which has room for it.
fn put_on(
    alloc: Global,
    store: &mut PageStore,
    root: PageId,
    path: &Path,
    item: &LeafItem,
) -> Result<(), WantOfMemory>
    requires forest { IsRoot (pages_of store.old) root }
    requires item { IsLeaf item.now }
    requires room { HasRoom (pages_of store.old) root item.now path.now }
    ensures ok { (roots : List ℕ) (items : ℕ → List (List ℕ)) → Forest (pages_of store.old) roots items → Contains roots root
        → OnOk result (Forest (pages_of store.new) roots (with_tree items root (with_item item.now.key (leaf_bytes item.now) (items root)))) }
    ensures kept { store.new.kept ≡ store.old.kept }
{
    let plan = plan_put(alloc, path, meta_page(store), item)?;
    run_plan(alloc, store, plan)
}

/// Puts the item into a tree, or in the place of the one with its key. SpaceFull as for `make_room`.
pub fn put(
    alloc: Global,
    store: &mut PageStore,
    root: PageId,
    item: &LeafItem,
) -> Result<Result<(), TreeNo>, WantOfMemory>
    requires forest { IsRoot (pages_of store.old) root }
    requires item { IsLeaf item.now }
    ensures ok { (roots : List ℕ) (items : ℕ → List (List ℕ)) → Forest (pages_of store.old) roots items → Contains roots root
        → IfOk result (λ answer. OnOk answer (Forest (pages_of store.new) roots (with_tree items root (with_item item.now.key (leaf_bytes item.now) (items root))))) }
    ensures stays { (roots : List ℕ) (items : ℕ → List (List ℕ)) → Forest (pages_of store.old) roots items → Contains roots root
        → IfOk result (λ answer. OnErr answer (Forest (pages_of store.new) roots items)) }
    ensures no { IfOk result (λ answer. IfErr answer (λ no. no ≡ TreeNo.SpaceFull)) }
    ensures full { IfOk result (λ answer. OnErr answer (IsFull (pages_of store.new) root)) }
    ensures kept { store.new.kept ≡ store.old.kept }
{
    match make_room(alloc, store, root, item)? {
        Ok(path) => {
            put_on(alloc, store, root, &path, item)?;
            Ok(Ok(()))
        }
        Err(no) => Ok(Err(no)),
    }
}

/// The item of a key alone.
fn item_of(alloc: Global, key: &[u8]) -> Result<LeafItem, WantOfMemory>
    requires { length key.now ≤ 64 }
    ensures key { IfOk result (λ item. item.key ≡ key.now) }
    ensures item { IfOk result IsLeaf }
{
    let mut bytes = Bytes::new(alloc);
    bytes.append(key)?;
    Ok(LeafItem {
        key: bytes,
        deleted: false,
        trx: TrxId::new(0),
        older: UndoPtr { page: 0, slot: 0 },
        value: Items::new(alloc),
    })
}

/// Takes the item with the key of `item` out of its leaf, where it is there.
fn take_from(
    alloc: Global,
    store: &mut PageStore,
    root: PageId,
    path: &Path,
    item: &LeafItem,
) -> Result<(), WantOfMemory>
    requires forest { IsRoot (pages_of store.old) root }
    requires room { HasRoom (pages_of store.old) root item.now path.now }
    ensures ok { (roots : List ℕ) (items : ℕ → List (List ℕ)) → Forest (pages_of store.old) roots items → Contains roots root
        → OnOk result (Forest (pages_of store.new) roots (with_tree items root (without_item item.now.key (items root)))) }
    ensures kept { store.new.kept ≡ store.old.kept }
{
    match plan_take(alloc, path, meta_page(store), item)? {
        Some(plan) => run_plan(alloc, store, plan),
        None => Ok(()),
    }
}

/// Takes the item with the key out of a tree, where it is there. The pages on its way are split as for
/// every change; SpaceFull as for `make_room`.
pub fn take_out(
    alloc: Global,
    store: &mut PageStore,
    root: PageId,
    key: &[u8],
) -> Result<Result<(), TreeNo>, WantOfMemory>
    requires forest { IsRoot (pages_of store.old) root }
    requires short { length key.now ≤ 64 }
    ensures ok { (roots : List ℕ) (items : ℕ → List (List ℕ)) → Forest (pages_of store.old) roots items → Contains roots root
        → IfOk result (λ answer. OnOk answer (Forest (pages_of store.new) roots (with_tree items root (without_item key.now (items root))))) }
    ensures stays { (roots : List ℕ) (items : ℕ → List (List ℕ)) → Forest (pages_of store.old) roots items → Contains roots root
        → IfOk result (λ answer. OnErr answer (Forest (pages_of store.new) roots items)) }
    ensures no { IfOk result (λ answer. IfErr answer (λ no. no ≡ TreeNo.SpaceFull)) }
    ensures full { IfOk result (λ answer. OnErr answer (IsFull (pages_of store.new) root)) }
    ensures kept { store.new.kept ≡ store.old.kept }
{
    let item = item_of(alloc, key)?;
    match make_room(alloc, store, root, &item)? {
        Ok(path) => {
            take_from(alloc, store, root, &path, &item)?;
            Ok(Ok(()))
        }
        Err(no) => Ok(Err(no)),
    }
}

/// Puts the item into a tree, whose leaf has room for it, and makes the next page the root of an empty
/// tree, in one group.
pub fn put_with_tree(
    alloc: Global,
    store: &mut PageStore,
    root: PageId,
    path: &Path,
    item: &LeafItem,
) -> Result<(), WantOfMemory>
    requires forest { IsRoot (pages_of store.old) root }
    requires item { IsLeaf item.now }
    requires room { HasRoom (pages_of store.old) root item.now path.now }
    requires next { page_count (pages_of store.old 0) ≤ MAX_PAGE_ID }
    ensures ok { (roots : List ℕ) (items : ℕ → List (List ℕ)) → Forest (pages_of store.old) roots items → Contains roots root
        → let new = page_count (pages_of store.old 0) in
        OnOk result (Forest (pages_of store.new) (roots ++ new ∷ []) (with_tree (with_tree items root (with_item item.now.key (leaf_bytes item.now) (items root))) new [])) }
    ensures kept { store.new.kept ≡ store.old.kept }
{
    let plan = plan_with_root(alloc, path, meta_page(store), item)?;
    run_plan(alloc, store, plan)
}
