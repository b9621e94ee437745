//! The item of a key in a leaf.
ghost use Rattle.std.specs.Prelude.{◌≡◌, ◌<◌, Some, length, slice_get, IfOk};
ghost use Rattle.page_view.specs.Keys.{IsFound, keys_of};
ghost use Rattle.page_view.specs.Leaf.{HoldsLeaf, IsLeaf, leaf_of};
ghost use Rattle.page_view.specs.Undo.{IsOld};
ghost use Rattle.tree_change.specs.Pages.{HasRows};
ghost use Rattle.tree_change.specs.Places.{leaf_on};
ghost use Rattle.row_edits.specs.RowPlans as spec;

use page_image::Page;
use page_view::{LeafItem, LeafRef, LeafView};
use redo_record::Path;
use rm_base::WantOfMemory;
use std::alloc::Global;

/// The last page of a path.
pub(crate) fn leaf_of(path: &Path) -> &Page
    requires { 0 < length path.now }
    ensures { result.now ≡ leaf_on path.now }
{
    let pages = path.as_slice();
    &pages[pages.len() - 1]
}

/// The place of the key in the leaf, or the number of lesser keys where it is not there.
pub(crate) fn find(leaf: &Page, key: &[u8]) -> Result<usize, usize>
    requires { HasRows leaf.now }
    ensures { IsFound (keys_of leaf.now.items) key.now result }
{
    LeafView::over(leaf).unwrap().find(key)
}

/// The leaf item that the bytes spell.
#[tactic(auto, using(range_reader::proofs::ItemLaws::read_is))]
fn item_in(bytes: &[u8]) -> LeafRef<'_>
    requires { HoldsLeaf bytes.now }
    ensures is { result ≡ leaf_of bytes.now }
    ensures leaf { IsLeaf result }
{
    LeafRef::read(bytes).unwrap()
}

/// The bytes at a place of the leaf.
#[tactic(auto, using(range_reader::proofs::ItemLaws::holds_at))]
fn bytes_at(leaf: &Page, place: usize) -> &[u8]
    requires rows { HasRows leaf.now }
    requires there { place < length leaf.now.items }
    ensures is { slice_get leaf.now.items place ≡ Some result.now }
    ensures holds { HoldsLeaf result.now }
{
    leaf.item(place).unwrap()
}

/// The item at the place of the key, in memory of its own.
#[tactic(auto, using(crate::proofs::LeafLaws::found_old, crate::proofs::LeafLaws::found_within, crate::proofs::LeafLaws::found_key))]
fn found_at(alloc: Global, leaf: &Page, key: &[u8], place: usize) -> Result<LeafItem, WantOfMemory>
    requires rows { HasRows leaf.now }
    requires found { slice_get (keys_of leaf.now.items) place ≡ Some key.now }
    ensures is { IfOk result (λ old. spec.old_in leaf.now key.now ≡ Some old) }
    ensures old { IfOk result (λ old. IsOld key.now (Some old)) }
{
    item_in(bytes_at(leaf, place)).to_item(alloc)
}

/// The item with the key in the leaf, if it is there.
#[tactic(auto, using(crate::proofs::LeafLaws::no_old))]
pub(crate) fn old_in(
    alloc: Global,
    leaf: &Page,
    key: &[u8],
) -> Result<Option<LeafItem>, WantOfMemory>
    requires { HasRows leaf.now }
    ensures is { IfOk result (λ old. old ≡ spec.old_in leaf.now key.now) }
    ensures old { IfOk result (λ old. IsOld key.now old) }
{
    match find(leaf, key) {
        Ok(place) => Ok(Some(found_at(alloc, leaf, key, place)?)),
        Err(_) => Ok(None),
    }
}
