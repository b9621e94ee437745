ghost use Rattle.std.specs.Prelude.{◌≡◌, ◌≤◌, ◌<◌, ◌+◌, ◌*◌, ◌^◌, ◌↔◌, IsTrue, [], length, slice_index_or};
ghost use Rattle.page_view.specs.Keys.{Ascend, keys_of, IsFound};
ghost use Rattle.page_view.specs.Keys as spec;

use page_image::Page;
use std::cmp::Ordering;

/// The key of the page's item at place i: as many bytes as its first byte says, behind it.
pub fn key_at(page: &Page, i: usize) -> &[u8]
    requires { i < length page.now.items }
    ensures { result.now ≡ slice_index_or (keys_of page.now.items) i [] }
{
    key_in(page.item(i).unwrap())
}

fn key_in(item: &[u8]) -> &[u8]
    ensures { result.now ≡ spec.key_in item.now }
{
    match item {
        [] => item,
        [length, rest @ ..] => &rest[..rest.len().min(usize::from(*length))],
    }
}

/// Where the key stands among the keys of the page's items, which ascend: Ok of its place, or Err of the
/// number of lesser keys.
pub fn find(page: &Page, key: &[u8]) -> Result<usize, usize>
    requires { Ascend (keys_of page.now.items) }
    ensures { IsFound (keys_of page.now.items) key.now result }
{
    halve(page, key).0
}

/// The same, with the number of items that were looked at: each look halves the places that are left.
pub(crate) fn halve(page: &Page, key: &[u8]) -> (Result<usize, usize>, u32)
    requires { Ascend (keys_of page.now.items) }
    ensures found { IsFound (keys_of page.now.items) key.now result.0 }
    ensures looks { 2 ^ result.1 ≤ 2 * length page.now.items + 1 }
{
    let mut low = 0usize;
    let mut high = usize::from(page.slots());
    let mut looks = 0u32;
    while low < high {
        let middle = low + (high - low) / 2;
        looks += 1;
        match key_at(page, middle).cmp(key) {
            Ordering::Less => low = middle + 1,
            Ordering::Greater => high = middle,
            Ordering::Equal => return (Ok(middle), looks),
        }
    }
    (Err(low), looks)
}

/// Whether each key of the page's items is less than the next.
pub fn keys_ascend(page: &Page) -> bool
    ensures { IsTrue result ↔ Ascend (keys_of page.now.items) }
{
    let count = usize::from(page.slots());
    for next in 1..count {
        if key_at(page, next - 1).cmp(key_at(page, next)) != Ordering::Less {
            return false;
        }
    }
    true
}
