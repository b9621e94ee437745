//! Where a key stands in the pages of a path.
ghost use Rattle.std.specs.Prelude.{◌≡◌, ◌≤◌, ◌<◌, ◌+◌, length, slice_index};
ghost use Rattle.page_view.specs.Keys.{keys_of, IsFound, IsChildFor};
ghost use Rattle.page_view.specs.Keys as keys;
ghost use Rattle.tree_change.specs.Places.{lesser, not_greater, page_on, leaf_on};
ghost use Rattle.tree_change.specs.Pages.{HasRows, HasChildren};

use page_image::Page;
use page_view::{InnerView, LeafView};
use redo_record::Path;

/// The first page of a path.
pub(crate) fn root_of(path: &Path) -> &Page
    requires { 0 < length path.now }
    ensures { result.now ≡ page_on path.now 0 }
{
    let pages = path.as_slice();
    &pages[0]
}

/// The last page of a path.
pub(crate) fn leaf_of(path: &Path) -> &Page
    requires { 0 < length path.now }
    ensures { result.now ≡ leaf_on path.now }
{
    let pages = path.as_slice();
    &pages[pages.len() - 1]
}

/// The place of the key in the leaf, or the number of lesser keys where it is not there.
pub(crate) fn found_in(leaf: &Page, key: &[u8]) -> Result<usize, usize>
    requires { HasRows leaf.now }
    ensures { IsFound (keys_of leaf.now.items) key.now result }
{
    LeafView::over(leaf).unwrap().find(key)
}

/// How many of the leaf's items have a lesser key.
pub(crate) fn place_in(leaf: &Page, key: &[u8]) -> u16
    requires { HasRows leaf.now }
    ensures place { result ≡ lesser key.now leaf.now.items }
    ensures within { result ≤ length leaf.now.items }
{
    let slots = leaf.slots();
    let place = match found_in(leaf, key) {
        Ok(place) => place,
        Err(lesser) => lesser,
    };
    slots.min(place as u16)
}

/// The place of the child that holds the key.
fn child_in(page: &Page, key: &[u8]) -> usize
    requires { HasChildren page.now }
    ensures { IsChildFor (keys_of page.now.items) key.now result }
{
    InnerView::over(page).unwrap().child_for(key)
}

/// The place behind the child that holds the key: how many of the page's items have a key that is not
/// greater.
pub(crate) fn place_behind(page: &Page, key: &[u8]) -> u16
    requires { HasChildren page.now }
    ensures place { result ≡ not_greater key.now page.now.items }
    ensures within { result ≤ length page.now.items }
{
    let slots = page.slots();
    let child = child_in(page, key);
    slots.min(child as u16 + 1)
}

/// The key of an item.
pub(crate) fn key_in(item: &[u8]) -> &[u8]
    requires { 1 + slice_index item.now 0 ≤ length item.now }
    ensures { result.now ≡ keys.key_in item.now }
{
    &item[1..1 + usize::from(item[0])]
}
