//! The changes of a page, on its bytes.
ghost use Rattle.std.specs.Prelude.{◌≡◌, if◌then◌else◌};
ghost use Rattle.page_image.specs.Image.{unmade, zeros, is_slotted, is_inner, made, patched, inserted, removed, cut_from, linked};
ghost use Rattle.page_image.specs.Image.{CanMake, CanPatch, CanInsert, CanRemove, CanCut, CanLink, Follows};
ghost use Rattle.page_image.specs.Layout.{image_of};
ghost use Rattle.page_image.specs.Rules.{IsPage};

use crate::header::Header;
use crate::kind::Kind;
use crate::layout::{clear, close_slot, item_end, open_slot, overwrite, put_item, take_item};
use rm_base::{PAGE_BYTES, PAGE_HEADER_BYTES, PageId};

/// Makes zero bytes the page before it is made.
pub(crate) fn write_blank(bytes: &mut [u8], page: PageId)
    requires { bytes.old ≡ zeros PAGE_BYTES }
    ensures page { IsPage bytes.new }
    ensures image { image_of bytes.new ≡ unmade page }
{
    let header = Header {
        kind: Kind::Unmade,
        slots: 0,
        page: page.number(),
        lsn: 0,
        structure: 0,
        next: 0,
        low: 0,
        level: 0,
    };
    header.write(bytes);
}

/// The lowest item's offset on a page of that kind without items.
fn empty_low(kind: Kind) -> u16
    ensures { result ≡ (if is_slotted kind then PAGE_BYTES else 0) }
{
    if kind.has_items() {
        PAGE_BYTES as u16
    } else {
        0
    }
}

/// Only the header changes, since all behind it is zero on a page that can be made.
pub(crate) fn make(bytes: &mut [u8], kind: Kind, level: u8, lsn: u64)
    requires page { IsPage bytes.old }
    requires can { CanMake (image_of bytes.old) kind level }
    requires follows { Follows (image_of bytes.old) lsn }
    ensures page { IsPage bytes.new }
    ensures image { image_of bytes.new ≡ made (image_of bytes.old) kind level lsn }
{
    let header = Header::read(bytes);
    let header = Header {
        kind,
        slots: 0,
        page: header.page,
        lsn,
        structure: lsn,
        next: 0,
        low: empty_low(kind),
        level,
    };
    header.write(bytes);
}

/// The structure number after a change of the items at `lsn`.
fn shape(header: &Header, lsn: u64) -> u64
    ensures { result ≡ (if is_inner header.now.kind then lsn else header.now.structure) }
{
    match header.kind {
        Kind::Inner => lsn,
        _ => header.structure,
    }
}

pub(crate) fn insert(bytes: &mut [u8], i: usize, item: &[u8], lsn: u64)
    requires page { IsPage bytes.old }
    requires can { CanInsert (image_of bytes.old) i item.now }
    requires follows { Follows (image_of bytes.old) lsn }
    ensures page { IsPage bytes.new }
    ensures image { image_of bytes.new ≡ inserted (image_of bytes.old) i item.now lsn }
{
    let header = Header::read(bytes);
    let low = usize::from(header.low) - item.len();
    let end = item_end(bytes, i);
    put_item(bytes, low, end, item);
    let others = usize::from(header.slots) - i;
    open_slot(
        bytes,
        PAGE_HEADER_BYTES + 2 * i,
        others,
        end,
        end - item.len(),
    );
    let header = Header {
        slots: header.slots + 1,
        lsn,
        structure: shape(&header, lsn),
        low: low as u16,
        ..header
    };
    header.write(bytes);
}

pub(crate) fn remove(bytes: &mut [u8], i: usize, lsn: u64)
    requires page { IsPage bytes.old }
    requires can { CanRemove (image_of bytes.old) i }
    requires follows { Follows (image_of bytes.old) lsn }
    ensures page { IsPage bytes.new }
    ensures image { image_of bytes.new ≡ removed (image_of bytes.old) i lsn }
{
    let header = Header::read(bytes);
    let low = usize::from(header.low);
    let end = item_end(bytes, i);
    let begin = item_end(bytes, i + 1);
    take_item(bytes, low, end, end - begin);
    let others = usize::from(header.slots) - i - 1;
    close_slot(bytes, PAGE_HEADER_BYTES + 2 * i, others, begin, end);
    let header = Header {
        slots: header.slots - 1,
        lsn,
        structure: shape(&header, lsn),
        low: (low + (end - begin)) as u16,
        ..header
    };
    header.write(bytes);
}

pub(crate) fn cut(bytes: &mut [u8], from: usize, lsn: u64)
    requires page { IsPage bytes.old }
    requires can { CanCut (image_of bytes.old) from }
    requires follows { Follows (image_of bytes.old) lsn }
    ensures page { IsPage bytes.new }
    ensures image { image_of bytes.new ≡ cut_from (image_of bytes.old) from lsn }
{
    let header = Header::read(bytes);
    let end = item_end(bytes, from);
    clear(bytes, PAGE_HEADER_BYTES + 2 * from, end);
    let structure = lsn;
    let header = Header {
        slots: from as u16,
        lsn,
        structure,
        low: end as u16,
        ..header
    };
    header.write(bytes);
}

pub(crate) fn link(bytes: &mut [u8], next: u32, lsn: u64)
    requires page { IsPage bytes.old }
    requires can { CanLink (image_of bytes.old) next }
    requires follows { Follows (image_of bytes.old) lsn }
    ensures page { IsPage bytes.new }
    ensures image { image_of bytes.new ≡ linked (image_of bytes.old) next lsn }
{
    let header = Header {
        lsn,
        structure: lsn,
        next,
        ..Header::read(bytes)
    };
    header.write(bytes);
}

pub(crate) fn patch(bytes: &mut [u8], at: usize, new: &[u8], lsn: u64)
    requires page { IsPage bytes.old }
    requires can { CanPatch (image_of bytes.old) at new.now }
    requires follows { Follows (image_of bytes.old) lsn }
    ensures page { IsPage bytes.new }
    ensures image { image_of bytes.new ≡ patched (image_of bytes.old) at new.now lsn }
{
    let header = Header {
        lsn,
        ..Header::read(bytes)
    };
    overwrite(bytes, at, new);
    header.write(bytes);
}
