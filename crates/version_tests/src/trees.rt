//! A tree with large rows.
ghost use Rattle.std.specs.Prelude.{◌≡◌, ◌∷◌, [], IfOk, IfSome, OnOk};
ghost use Rattle.bplus_tree.specs.Forest.{IsRoot};
ghost use Rattle.page_store.specs.Stored.{pages_of};
ghost use Rattle.page_view.specs.Leaf.{IsLeaf};
ghost use Rattle.tree_change.specs.Way.{IsWayTo};

use crate::items::{NONE, is_leaf, version};
use page_store::PageStore;
use page_view::LeafItem;
use redo_record::Path;
use rm_base::{CATALOG_ROOT_PAGE_ID, PageId, WantOfMemory};
use std::alloc::Global;
use tree_store::{forest_laws, make_room, put};

/// A store with its first tree.
pub fn start(alloc: Global) -> Result<PageStore, WantOfMemory>
    ensures { IfOk result (λ store. IsRoot (pages_of store) CATALOG_ROOT_PAGE_ID) }
{
    forest_laws();
    PageStore::new(alloc)
}

/// Puts the version into the tree. False where it is too large, or where there is no space.
pub fn put_version(
    alloc: Global,
    store: &mut PageStore,
    root: PageId,
    item: &LeafItem,
) -> Result<bool, WantOfMemory>
    requires { IsRoot (pages_of store.old) root }
    ensures { OnOk result (IsRoot (pages_of store.new) root) }
{
    if !is_leaf(item) {
        return Ok(false);
    }
    let answer = put(alloc, store, root, item)?;
    Ok(answer.is_ok())
}

/// Puts a version of transaction 7 with 900 bytes of value into the tree.
pub fn put_key(
    alloc: Global,
    store: &mut PageStore,
    root: PageId,
    key: u8,
) -> Result<bool, WantOfMemory>
    requires { IsRoot (pages_of store.old) root }
    ensures { OnOk result (IsRoot (pages_of store.new) root) }
{
    let item = version(alloc, key, 7, NONE, 900)?;
    put_version(alloc, store, root, &item)
}

/// The way to the leaf of the item's key, with room for the item.
fn way_for(
    alloc: Global,
    store: &mut PageStore,
    root: PageId,
    item: &LeafItem,
) -> Result<Option<Path>, WantOfMemory>
    requires root { IsRoot (pages_of store.old) root }
    requires item { IsLeaf item.now }
    ensures { IfOk result (λ path. IfSome path (IsWayTo item.now.key)) }
{
    match make_room(alloc, store, root, item)? {
        Err(_) => Ok(None),
        Ok(path) => Ok(Some(path)),
    }
}

/// The way to the leaf of the key, where a row of few bytes has room.
pub fn way_to(
    alloc: Global,
    store: &mut PageStore,
    root: PageId,
    key: u8,
) -> Result<Option<Path>, WantOfMemory>
    requires { IsRoot (pages_of store.old) root }
    ensures { IfOk result (λ path. IfSome path (IsWayTo (key ∷ []))) }
{
    let item = version(alloc, key, 7, NONE, 0)?;
    if !is_leaf(&item) {
        return Ok(None);
    }
    way_for(alloc, store, root, &item)
}
