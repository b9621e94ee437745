//! The two halves of a page that is split.
ghost use Rattle.std.specs.Prelude.{◌≡◌, ◌≤◌, ◌<◌, ◌+◌, ◌-◌, ◌^◌, ◌++◌, length, take, drop, slice_index, OnOk, IfOk};
ghost use Rattle.std.specs.List.{AllByRecursion};
ghost use Rattle.page_image.specs.Image.{used};
ghost use Rattle.tree_change.specs.Splits as spec;
ghost use Rattle.tree_change.specs.Splits.{inserts, right_half, IsSplitPlace, IsHeavy};

use crate::places::key_in;
use page_image::{Kind, Page};
use redo_record::{Record, Records};
use rm_base::{Bytes, PageId, WantOfMemory};
use std::alloc::Global;

/// Half a page's bytes for items and slots.
pub const HALF_BYTES: usize = 2032;

/// The least number of the page's items that take half a page or more.
pub(crate) fn split_place(page: &Page) -> u16
    requires { IsHeavy page.now.items }
    ensures { IsSplitPlace page.now.items result }
{
    let mut used = 0;
    for i in 0..page.slots() {
        if used >= HALF_BYTES {
            return i;
        }
        used += page.item(usize::from(i)).unwrap().len() + 2;
    }
    page.slots()
}

/// The first key of the right half.
pub(crate) fn separator(page: &Page, at: u16) -> &[u8]
    requires heavy { IsHeavy page.now.items }
    requires within { at < length page.now.items }
    ensures key { result.now ≡ spec.separator page.now at }
    ensures bound { length result.now ≤ 255 }
{
    key_in(page.item(usize::from(at)).unwrap())
}

/// Adds the records that put the page's items from `from` up to `to` into the new page, each at its
/// place less `shift`.
pub(crate) fn move_items(
    alloc: Global,
    records: &mut Records,
    page: &Page,
    from: u16,
    to: u16,
    new: PageId,
    shift: u16,
) -> Result<(), WantOfMemory>
    requires ordered { from ≤ to }
    requires within { to ≤ length page.now.items }
    requires shift { shift ≤ from }
    ensures { OnOk result (records.new ≡ records.old ++ inserts new (from - shift) (take (to - from) (drop from page.now.items))) }
{
    for i in from..to {
        let mut bytes = Bytes::new(alloc);
        bytes.append(page.item(usize::from(i)).unwrap())?;
        records.push(Record::InsertSlot {
            page: new,
            index: i - shift,
            bytes,
        })?;
    }
    Ok(())
}

/// The item with the empty key in place of its own.
fn without_key(alloc: Global, item: &[u8]) -> Result<Bytes, WantOfMemory>
    requires { 1 + slice_index item.now 0 ≤ length item.now }
    ensures { IfOk result (λ bytes. bytes ≡ spec.without_key item.now) }
{
    let mut bytes = Bytes::new(alloc);
    bytes.push(0)?;
    bytes.append(&item[1 + usize::from(item[0])..])?;
    Ok(bytes)
}

/// Adds the records that put an inner page's right half into the new page, the first item without its
/// key.
fn move_children(
    alloc: Global,
    records: &mut Records,
    page: &Page,
    at: u16,
    new: PageId,
) -> Result<(), WantOfMemory>
    requires inner { page.now.kind ≡ Kind.Inner }
    requires heavy { IsHeavy page.now.items }
    requires within { at < length page.now.items }
    ensures { OnOk result (records.new ≡ records.old ++ inserts new 0 (right_half page.now at)) }
{
    let slots = page.slots();
    let bytes = without_key(alloc, page.item(usize::from(at)).unwrap())?;
    records.push(Record::InsertSlot {
        page: new,
        index: 0,
        bytes,
    })?;
    move_items(alloc, records, page, at + 1, slots, new, at)
}

/// Adds the records that put the page's right half into the new page.
pub(crate) fn move_right_half(
    alloc: Global,
    records: &mut Records,
    page: &Page,
    at: u16,
    new: PageId,
) -> Result<(), WantOfMemory>
    requires heavy { IsHeavy page.now.items }
    requires within { at < length page.now.items }
    ensures { OnOk result (records.new ≡ records.old ++ inserts new 0 (right_half page.now at)) }
{
    if page.kind() == Kind::Inner {
        return move_children(alloc, records, page, at, new);
    }
    let slots = page.slots();
    move_items(alloc, records, page, at, slots, new, at)
}
