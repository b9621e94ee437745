ghost use Rattle.std.specs.Prelude.{◌≡◌, ◌-◌, length, slice_get};
ghost use Rattle.page_view.specs.Keys as keys;
ghost use Rattle.page_view.specs.Leaf.{HoldsLeaf};
ghost use Rattle.bplus_tree.specs.Walk as walk;
ghost use Rattle.bplus_tree.specs.Walk.{IsInnerToRead, IsLeafToRead, LeadsTo};

use page_image::Page;
use page_view::InnerView;
use rm_base::{Bytes, PageId};
use std::cmp::Ordering;

/// The child of an inner page that holds the key.
pub fn child_for(page: &Page, key: &[u8]) -> PageId
    requires { IsInnerToRead page.now }
    ensures { LeadsTo page.now key.now result }
{
    let view = InnerView::over(page).unwrap();
    let place = view.child_for(key);
    view.item(place).unwrap().child()
}

/// Whether the last key of the leaf is at least the high end of a range.
pub fn reaches(high: &Option<Bytes>, page: &Page) -> bool
    requires { IsLeafToRead page.now }
    ensures { result ≡ walk.reaches high.now page.now.items }
{
    match high {
        None => false,
        Some(high) => reaches_key(high.as_slice(), page),
    }
}

fn reaches_key(high: &[u8], page: &Page) -> bool
    requires { IsLeafToRead page.now }
    ensures { result ≡ walk.reaches_with high.now (slice_get page.now.items (length page.now.items - 1)) }
{
    match page.slots() {
        0 => false,
        count => leaf_key(page.item(usize::from(count) - 1).unwrap()).cmp(high) != Ordering::Less,
    }
}

/// The key of a leaf item.
fn leaf_key(item: &[u8]) -> &[u8]
    requires { HoldsLeaf item.now }
    ensures { result.now ≡ keys.key_in item.now }
{
    &item[1..1 + usize::from(item[0])]
}
