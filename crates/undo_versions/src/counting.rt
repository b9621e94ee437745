//! The number of pages and the undo page in use, which the meta page has.
ghost use Rattle.std.specs.Prelude.{◌≡◌, ◌++◌, ◌∷◌, [], OnOk, OnErr, IfOk};
ghost use Rattle.rm_base.specs.Fields.{field};
ghost use Rattle.page_image.specs.Rules.{IsImage};
ghost use Rattle.undo_versions.specs.Appending as spec;
ghost use Rattle.undo_versions.specs.Effects.{Uses};

use page_image::{Kind, PAGE_COUNT_AT, Page};
use redo_record::{Record, Records};
use rm_base::{Bytes, PageId, WantOfMemory, push_u32};
use std::alloc::Global;

fn count_bytes(alloc: Global, count: u32, page: PageId) -> Result<Bytes, WantOfMemory>
    ensures { IfOk result (λ bytes. bytes ≡ field 4 count ++ field 4 page) }
{
    let mut bytes = Bytes::new(alloc);
    push_u32(&mut bytes, count)?;
    push_u32(&mut bytes, page.number())?;
    Ok(bytes)
}

/// A page keeps the rules of pages. It does nothing when it is run.
fn keeps_rules(page: &Page)
    ensures { IsImage page.now }
{
    let _bytes = page.bytes();
}

/// What the record does. It does nothing when it is run.
fn counting_changes(meta: &Page, count: u32, page: PageId)
    requires { meta.now.kind ≡ Kind.Meta }
    ensures { Uses meta.now count page (spec.counts_undo meta.now count page ∷ []) }
{
    keeps_rules(meta);
    let _number = page.number();
}

/// Adds the record by which the meta page counts so many pages and has this one as the undo page in
/// use. It changes nothing else.
pub fn push_undo_page(
    alloc: Global,
    records: &mut Records,
    meta: &Page,
    count: u32,
    page: PageId,
) -> Result<(), WantOfMemory>
    requires { meta.now.kind ≡ Kind.Meta }
    ensures ok { OnOk result
        (records.new ≡ records.old ++ spec.counts_undo meta.now count page ∷ []) }
    ensures err { OnErr result (records.new ≡ records.old) }
    ensures changes { Uses meta.now count page (spec.counts_undo meta.now count page ∷ []) }
{
    counting_changes(meta, count, page);
    let bytes = count_bytes(alloc, count, page)?;
    records.push(Record::Patch {
        page: meta.page(),
        at: PAGE_COUNT_AT,
        bytes,
    })
}
