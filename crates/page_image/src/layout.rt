//! Slots and items in a page's bytes.
ghost use Rattle.std.specs.Prelude.{◌≡◌, ◌≤◌, ◌+◌, ◌*◌, ℕ, List, ◌++◌, length};
ghost use Rattle.rm_base.specs.Fields.{field};
ghost use Rattle.page_image.specs.Image.{zeros};
ghost use Rattle.page_image.specs.Layout.{end_of, slot_bytes};
ghost use Rattle.page_image.specs.Moves.{HasSlots};

use crate::moving::move_bytes;
use rm_base::{PAGE_BYTES, PAGE_HEADER_BYTES, get_u16, put_u16};

/// Where item i ends: at the offset of the item before it, or at the page's end.
pub(crate) fn item_end(bytes: &[u8], i: usize) -> usize
    requires place { i ≤ 1354 }
    requires all { length bytes.now ≡ PAGE_BYTES }
    ensures { result ≡ end_of bytes.now i }
{
    if i == 0 {
        PAGE_BYTES
    } else {
        usize::from(get_u16(bytes, PAGE_HEADER_BYTES + 2 * (i - 1)))
    }
}

/// Puts the item in front of offset `to`, and moves what stands there down over the free bytes that
/// begin at `from`, of which the item takes the room.
pub(crate) fn put_item(bytes: &mut [u8], from: usize, to: usize, item: &[u8])
    requires room { from + length item.now ≤ to }
    requires within { to ≤ length bytes.old }
    requires page { length bytes.old ≤ PAGE_BYTES }
    ensures { (p z b s : List ℕ) → length p ≡ from → length z ≡ length item.now
        → from + length z + length b ≡ to → bytes.old ≡ p ++ (z ++ (b ++ s))
        → bytes.new ≡ p ++ (b ++ (item.now ++ s)) }
{
    let size = item.len();
    move_bytes(bytes, from + size, to, from);
    bytes[to - size..to].copy_from_slice(item);
}

/// The slots of items of which the first ended at `from` become those of the same items where the
/// first ends at `to`.
fn move_slots(slots: &mut [u8], from: usize, to: usize)
    requires { (items : List (List ℕ)) × HasSlots slots.old from to items }
    ensures { (items : List (List ℕ)) → HasSlots slots.old from to items
        → slots.new ≡ slot_bytes to items }
{
    for i in 0..slots.len() / 2 {
        let place = usize::from(get_u16(slots, 2 * i));
        put_u16(slots, 2 * i, (place + to - from) as u16);
    }
}

/// Puts a slot at offset `at` in front of `count` others, for an item that begins at `to`. The
/// others' items, of which the first ended at `from`, end there now.
pub(crate) fn open_slot(bytes: &mut [u8], at: usize, count: usize, from: usize, to: usize)
    requires within { at + 2 * count + 2 ≤ length bytes.old }
    requires slots { (p s : List ℕ) × (items : List (List ℕ)) × (length p ≡ at)
        × (length items ≡ count) × (bytes.old ≡ p ++ (slot_bytes from items ++ s))
        × HasSlots (slot_bytes from items) from to items }
    ensures { (p g s : List ℕ) (items : List (List ℕ)) → length p ≡ at → length items ≡ count
        → length g ≡ 2 → bytes.old ≡ p ++ (slot_bytes from items ++ (g ++ s))
        → HasSlots (slot_bytes from items) from to items
        → bytes.new ≡ p ++ (field 2 to ++ (slot_bytes to items ++ s)) }
{
    let end = at + 2 * count;
    bytes.copy_within(at..end, at + 2);
    move_slots(&mut bytes[at + 2..end + 2], from, to);
    put_u16(bytes, at, to as u16);
}

fn make_zero(bytes: &mut [u8])
    ensures { bytes.new ≡ zeros (length bytes.old) }
{
    bytes.fill(0);
}

/// Takes the item of `size` bytes that ends at `to` away, and moves what stands below it, from `from`
/// on, up to its end. The room is zero bytes then.
pub(crate) fn take_item(bytes: &mut [u8], from: usize, to: usize, size: usize)
    requires room { from + size ≤ to }
    requires within { to ≤ length bytes.old }
    requires page { length bytes.old ≤ PAGE_BYTES }
    ensures { (p b x s : List ℕ) → length p ≡ from → length x ≡ size
        → from + length b + length x ≡ to → bytes.old ≡ p ++ (b ++ (x ++ s))
        → bytes.new ≡ p ++ (zeros size ++ (b ++ s)) }
{
    move_bytes(bytes, from, to - size, from + size);
    make_zero(&mut bytes[from..from + size]);
}

/// Takes the slot at offset `at` away from in front of `count` others. The others' items, of which the
/// first ended at `from`, end at `to` now.
pub(crate) fn close_slot(bytes: &mut [u8], at: usize, count: usize, from: usize, to: usize)
    requires within { at + 2 * count + 2 ≤ length bytes.old }
    requires slots { (p g s : List ℕ) × (items : List (List ℕ)) × (length p ≡ at) × (length g ≡ 2)
        × (length items ≡ count) × (bytes.old ≡ p ++ (g ++ (slot_bytes from items ++ s)))
        × HasSlots (slot_bytes from items) from to items }
    ensures { (p g s : List ℕ) (items : List (List ℕ)) → length p ≡ at → length items ≡ count
        → length g ≡ 2 → bytes.old ≡ p ++ (g ++ (slot_bytes from items ++ s))
        → HasSlots (slot_bytes from items) from to items
        → bytes.new ≡ p ++ (slot_bytes to items ++ (zeros 2 ++ s)) }
{
    let end = at + 2 * count;
    bytes.copy_within(at + 2..end + 2, at);
    move_slots(&mut bytes[at..end], from, to);
    put_u16(bytes, end, 0);
}

/// Makes the bytes from `from` up to `to` zero.
pub(crate) fn clear(bytes: &mut [u8], from: usize, to: usize)
    requires order { from ≤ to }
    requires within { to ≤ length bytes.old }
    ensures { (p m s : List ℕ) → length p ≡ from → from + length m ≡ to
        → bytes.old ≡ p ++ (m ++ s) → bytes.new ≡ p ++ (zeros (length m) ++ s) }
{
    make_zero(&mut bytes[from..to]);
}

/// Puts the bytes in at offset `at`.
pub(crate) fn overwrite(bytes: &mut [u8], at: usize, new: &[u8])
    requires { at + length new.now ≤ length bytes.old }
    ensures { (p m s : List ℕ) → length p ≡ at → length m ≡ length new.now
        → bytes.old ≡ p ++ (m ++ s) → bytes.new ≡ p ++ (new.now ++ s) }
{
    bytes[at..at + new.len()].copy_from_slice(new);
}
