//! Which pages have room for a change.
ghost use Rattle.std.specs.Prelude.{◌≡◌, ◌≤◌, ◌-◌, length};
ghost use Rattle.page_image.specs.Image.{used};
ghost use Rattle.page_image.specs.Rules.{IsImage};
ghost use Rattle.page_view.specs.Leaf.{IsLeaf};
ghost use Rattle.tree_change.specs.Places.{with_key};
ghost use Rattle.tree_change.specs.Room as spec;
ghost use Rattle.tree_change.specs.Pages.{HasRows, IsTreePage};

use crate::places::found_in;
use page_image::{Kind, Page};
use page_view::LeafItem;
use rm_base::{PAGE_BYTES, PAGE_HEADER_BYTES, RECORD_OVERHEAD_BYTES};

/// The free bytes of an inner page that has room: those of its largest item, and of that item's slot.
pub const INNER_ROOM: u16 = 71;

/// The bytes of a leaf item and of its slot.
pub(crate) fn size_of(item: &LeafItem) -> usize
    requires { IsLeaf item.now }
    ensures { result ≡ spec.size_of item.now }
{
    RECORD_OVERHEAD_BYTES + item.key.len() + item.value.len() + 2
}

/// The bytes of the leaf's item with the key, and of its slot; 0 where it is not there.

fn freed(leaf: &Page, key: &[u8]) -> usize
    requires { HasRows leaf.now }
    ensures freed { result ≡ used (with_key key.now leaf.now.items) }
    ensures bound { result ≤ 1002 }
{
    match found_in(leaf, key) {
        Ok(place) => leaf.item(place).unwrap().len() + 2,
        Err(_) => 0,
    }
}

/// The bytes that the leaf has for an item with the key.
pub(crate) fn room_for(leaf: &Page, key: &[u8]) -> usize
    requires { HasRows leaf.now }
    ensures { result ≡ spec.room_for key.now leaf.now }
{
    usize::from(leaf.free()) + freed(leaf, key)
}

/// Whether the page, on the way of the item's change, has too little room.
pub(crate) fn lacks_room(page: &Page, item: &LeafItem) -> bool
    requires page { IsTreePage page.now }
    requires item { IsLeaf item.now }
    ensures { result ≡ spec.lacks_room item.now page.now }
{
    if page.kind() == Kind::Inner {
        return page.free() < INNER_ROOM;
    }
    room_for(page, item.key.as_slice()) < size_of(item)
}

/// The items of a page fit it. It does nothing when it is run.
pub(crate) fn items_fit(page: &Page)
    ensures { used page.now.items ≤ PAGE_BYTES - PAGE_HEADER_BYTES }
{
    let _bytes = page.bytes();
}

/// A page keeps the rules of pages. It does nothing when it is run.
pub(crate) fn keeps_rules(page: &Page)
    ensures { IsImage page.now }
{
    let _bytes = page.bytes();
}
