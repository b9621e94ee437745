//! The record that sets the number of pages in the meta page.
ghost use Rattle.std.specs.Prelude.{◌≡◌, [], ◌∷◌, ◌++◌, OnOk};
ghost use Rattle.tree_change.specs.Splits as spec;

use crate::spelling::number_bytes;
use page_image::{PAGE_COUNT_AT, Page};
use redo_record::{Record, Records};
use rm_base::WantOfMemory;
use std::alloc::Global;

/// Adds the record that sets the number.
pub(crate) fn push_count(
    alloc: Global,
    records: &mut Records,
    meta: &Page,
    count: u32,
) -> Result<(), WantOfMemory>
    ensures { OnOk result (records.new ≡ records.old ++ spec.counts meta.now count ∷ []) }
{
    let bytes = number_bytes(alloc, count)?;
    records.push(Record::Patch {
        page: meta.page(),
        at: PAGE_COUNT_AT,
        bytes,
    })
}
