//! The way to a key, and the leaves of a range of keys.
ghost use Rattle.std.specs.Prelude.{◌≡◌, ◌≤◌, ℕ, List, Contains, IfOk, OnOk, SomeIff};
ghost use Rattle.bplus_tree.specs.Forest.{Forest, IsRoot};
ghost use Rattle.page_store.specs.Stored.{pages_of};
ghost use Rattle.page_image.specs.Meta as counters;
ghost use Rattle.page_image.specs.Meta.{IsMeta};
ghost use Rattle.tree_store.specs.Rooms.{IsWayIn};
ghost use Rattle.tree_store.specs.Found.{HoldsRange};
ghost use Rattle.tree_store.specs.Found as spec;

use bplus_tree::{Descent, LeafWalk, Want, search_laws};
use page_image::{Page, page_count};
use page_store::PageStore;
use redo_record::Path;
use rm_base::{Bytes, Duplicate, Items, KeyRange, MAX_PAGE_ID, PageId, WantOfMemory};
use std::alloc::Global;

/// The pages from the root of a tree down to the leaf of the key, the root first.
pub(crate) fn way(
    alloc: Global,
    store: &PageStore,
    root: PageId,
    key: &[u8],
) -> Result<Path, WantOfMemory>
    requires { IsRoot (pages_of store.now) root }
    ensures { IfOk result (IsWayIn (pages_of store.now) root key.now) }
{
    search_laws();
    let mut sought = Bytes::new(alloc);
    sought.append(key)?;
    let mut path = Items::new(alloc);
    let mut descent = Descent::new(root, sought);
    while let Want::Need(at) = descent.next() {
        let page = store.page(at).unwrap();
        path.push(page.copy(alloc)?)?;
        descent.give(page);
    }
    Ok(path)
}

/// The meta page.
pub(crate) fn meta_page(store: &PageStore) -> &Page
    requires { IsMeta (pages_of store.now 0) }
    ensures { result.now ≡ pages_of store.now 0 }
{
    store.page(PageId::new(0).unwrap()).unwrap()
}

/// Adds the leaf that a search names, where it names one.
fn note(leaves: &mut Items<PageId>, want: Want) -> Result<(), WantOfMemory>
    ensures { OnOk result (leaves.new ≡ spec.noted leaves.old want) }
{
    match want {
        Want::Leaf(leaf) => leaves.push(leaf),
        Want::Need(_) | Want::Finished => Ok(()),
    }
}

/// The leaves of a tree that have the items of a range of keys, from the left to the right.
pub fn leaves_in(
    alloc: Global,
    store: &PageStore,
    root: PageId,
    range: KeyRange,
) -> Result<Items<PageId>, WantOfMemory>
    requires { IsRoot (pages_of store.now) root }
    ensures { (roots : List ℕ) (items : ℕ → List (List ℕ)) → Forest (pages_of store.now) roots items → Contains roots root
        → IfOk result (λ leaves. HoldsRange (pages_of store.now) range.low range.high (items root) leaves) }
{
    search_laws();
    let mut leaves = Items::new(alloc);
    let mut walk = LeafWalk::new(root, range);
    while let Some(at) = walk.next().page() {
        note(&mut leaves, walk.next())?;
        walk.give(store.page(at).unwrap());
    }
    Ok(leaves)
}

/// The next page that can be made. None where there are no more.
pub fn next_page(store: &PageStore) -> Option<PageId>
    requires { (roots : List ℕ) × (items : ℕ → List (List ℕ)) × Forest (pages_of store.now) roots items }
    ensures { SomeIff result (counters.page_count (pages_of store.now 0) ≤ MAX_PAGE_ID) (counters.page_count (pages_of store.now 0)) }
{
    PageId::new(page_count(meta_page(store)))
}
