//! The undo item at a place.
ghost use Rattle.std.specs.Prelude.{◌≡◌, IfOk};
ghost use Rattle.undo_versions.specs.Reading as spec;

use crate::items::UndoItem;
use page_image::{Kind, Page};
use page_view::{LeafItem, LeafRef, UndoRef};
use rm_base::{Bytes, UndoPtr, WantOfMemory};
use std::alloc::Global;

/// The undo item that the bytes spell. None exactly where they spell none.
fn read_undo(bytes: &[u8]) -> Option<UndoRef<'_>>
    ensures { result ≡ spec.undo_in bytes.now }
{
    UndoRef::read(bytes)
}

/// The undo item at the place, in its page. None exactly where the page has another number or is no
/// undo page, or no undo item stands there.
fn undo_at(page: &Page, at: UndoPtr) -> Option<UndoRef<'_>>
    ensures { result ≡ spec.undo_at page.now at }
{
    if page.kind() != Kind::Undo || page.page().number() != at.page {
        return None;
    }
    let bytes = page.item(usize::from(at.slot))?;
    read_undo(bytes)
}

/// The item that was replaced, in memory of its own.
fn old_item(alloc: Global, old: Option<LeafRef<'_>>) -> Result<Option<LeafItem>, WantOfMemory>
    ensures { IfOk result (λ item. item ≡ old.entry) }
{
    match old {
        None => Ok(None),
        Some(old) => Ok(Some(old.to_item(alloc)?)),
    }
}

/// The undo item in memory of its own.
fn item_from(alloc: Global, undo: &UndoRef<'_>) -> Result<UndoItem, WantOfMemory>
    ensures { IfOk result (λ item. item ≡ spec.item_of undo.now) }
{
    let mut key = Bytes::new(alloc);
    key.append(undo.key())?;
    let old = old_item(alloc, undo.old())?;
    Ok(UndoItem {
        trx: undo.trx(),
        root: undo.root(),
        before: undo.before(),
        key,
        old,
    })
}

/// The undo item at the place, which says of a version what stood there before. None exactly where the
/// page has another number or is no undo page, or no undo item stands there.
pub fn older(alloc: Global, page: &Page, at: UndoPtr) -> Result<Option<UndoItem>, WantOfMemory>
    ensures { IfOk result (λ found. found ≡ spec.older page.now at) }
{
    match undo_at(page, at) {
        None => Ok(None),
        Some(undo) => Ok(Some(item_from(alloc, &undo)?)),
    }
}
