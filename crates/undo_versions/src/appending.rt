//! The part of a plan that keeps what a change replaces.
ghost use Rattle.std.specs.Prelude.{◌≡◌, ◌≤◌, ◌↔◌, ℕ, true, IfOk, IfErr, IsErr};
ghost use Rattle.page_image.specs.Meta as counters;
ghost use Rattle.page_view.specs.Undo.{IsUndo};
ghost use Rattle.undo_versions.specs.Reading.{undone_of};
ghost use Rattle.undo_versions.specs.Appending as spec;
ghost use Rattle.undo_versions.specs.Appending.{NeedsPage, fits_bytes, appended_bytes, begun_with};
ghost use Rattle.undo_versions.specs.Effects.{Appends};

use crate::items::UndoItem;
use crate::spelling::item_bytes;
use page_image::{Kind, Page, page_count};
use redo_record::{Record, Records, TreeNo};
use rm_base::{Bytes, MAX_PAGES, PageId, UndoPtr, WantOfMemory};
use std::alloc::Global;

/// Where an undo item goes, the records that put it there, and the page that they make, if any.
#[derive(Drop)]
pub struct UndoStep {
    pub at: UndoPtr,
    pub records: Records,
    pub made: Option<PageId>,
}

/// The step that puts the item at the end of the undo page in use.
fn append_to(alloc: Global, undo: &Page, bytes: Bytes) -> Result<UndoStep, WantOfMemory>
    ensures { IfOk result (λ step. step ≡ spec.appended_bytes undo.now bytes) }
{
    let page = undo.page();
    let slot = undo.slots();
    let mut records = Records::new(alloc);
    records.push(Record::InsertSlot {
        page,
        index: slot,
        bytes,
    })?;
    Ok(UndoStep {
        at: UndoPtr {
            page: page.number(),
            slot,
        },
        records,
        made: None,
    })
}

/// The step that makes a page for the item.
fn begin_page(alloc: Global, page: PageId, bytes: Bytes) -> Result<UndoStep, WantOfMemory>
    ensures { IfOk result (λ step. step ≡ spec.begun_with page bytes) }
{
    let mut records = Records::new(alloc);
    records.push(Record::Make {
        page,
        kind: Kind::Undo,
        level: 0,
    })?;
    records.push(Record::InsertSlot {
        page,
        index: 0,
        bytes,
    })?;
    Ok(UndoStep {
        at: UndoPtr {
            page: page.number(),
            slot: 0,
        },
        records,
        made: Some(page),
    })
}

/// Whether the bytes fit the page with a slot of theirs.
fn fits(undo: &Page, bytes: &Bytes) -> bool
    ensures { result ≡ spec.fits_bytes undo.now bytes.now }
{
    let free = usize::from(undo.free());
    bytes.len() <= free && bytes.len() + 2 <= free
}

/// What the records of both steps do. It does nothing when it is run.
fn append_changes(undo: &Page, item: &UndoItem, bytes: &[u8])
    requires undo { undo.now.kind ≡ Kind.Undo }
    requires item { IsUndo (undone_of item.now) }
    requires bytes { bytes.now ≡ spec.bytes_of item.now }
    ensures at_end { fits_bytes undo.now bytes.now ≡ true
        → Appends undo.now item.now (appended_bytes undo.now bytes.now) }
    ensures on_new { (page : ℕ) → Appends undo.now item.now (begun_with page bytes.now) }
{}

/// The step that keeps the item: at the end of the undo page in use, or on a new one, the next by the
/// meta page's count, exactly where the item does not fit. SpaceFull exactly where a new page is needed
/// and no page is left; never NoRoom.
pub fn append_plan(
    alloc: Global,
    meta: &Page,
    undo: &Page,
    item: &UndoItem,
) -> Result<Result<UndoStep, TreeNo>, WantOfMemory>
    requires meta { meta.now.kind ≡ Kind.Meta }
    requires undo { undo.now.kind ≡ Kind.Undo }
    requires item { IsUndo (undone_of item.now) }
    ensures full { IfOk result (λ answer.
        IsErr answer ↔ (NeedsPage undo.now item.now × (MAX_PAGES ≤ counters.page_count meta.now))) }
    ensures no { IfOk result (λ answer. IfErr answer (λ no. no ≡ TreeNo.SpaceFull)) }
    ensures step { IfOk result (λ answer. IfOk answer (λ step.
        step ≡ spec.undo_step meta.now undo.now item.now)) }
    ensures appends { IfOk result (λ answer. IfOk answer (Appends undo.now item.now)) }
{
    let bytes = item_bytes(alloc, item)?;
    append_changes(undo, item, bytes.as_slice());
    if fits(undo, &bytes) {
        return Ok(Ok(append_to(alloc, undo, bytes)?));
    }
    match PageId::new(page_count(meta)) {
        None => Ok(Err(TreeNo::SpaceFull)),
        Some(page) => Ok(Ok(begin_page(alloc, page, bytes)?)),
    }
}
