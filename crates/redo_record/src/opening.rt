//! The group that every log begins with.

ghost use Rattle.std.specs.Prelude.{◌≡◌, ◌≤◌, ◌++◌, IfOk, OnOk};
ghost use Rattle.rm_base.specs.Fields.{field};
ghost use Rattle.redo_record.specs.declared.redo.Record.TheVariants.{Make};
ghost use Rattle.redo_record.specs.Opening.{meta_fields, opening_records};

use crate::redo::{Record, Records};
use page_image::Kind;
use rm_base::{
    Bytes, CATALOG_ROOT_PAGE_ID, FIRST_FREE_PAGE_ID, FIRST_UNDO_PAGE_ID, MAX_PAGE_ID, META_PAGE_ID,
    PageId, SLOTS_PAGE_ID, WantOfMemory, push_u32, push_u64,
};
use std::alloc::Global;

/// Where the meta page's fields begin, in bytes.
pub const META_FIELDS_AT: u16 = 32;

/// The number of the format of pages and redo.
pub const FORMAT_NUMBER: u32 = 1;

/// The number that the first transaction is given.
pub const FIRST_TRX_ID: u64 = 1;

/// No transaction is committed.
pub const NO_STAMP: u64 = 0;

/// The meta page's fields.
fn meta_fields(alloc: Global) -> Result<Bytes, WantOfMemory>
    ensures { IfOk result (λ bytes. bytes ≡ meta_fields) }
{
    let mut fields = Bytes::new(alloc);
    push_u32(&mut fields, FORMAT_NUMBER)?;
    push_u32(&mut fields, FIRST_FREE_PAGE_ID)?;
    push_u32(&mut fields, FIRST_UNDO_PAGE_ID)?;
    push_u64(&mut fields, FIRST_TRX_ID)?;
    push_u64(&mut fields, NO_STAMP)?;
    Ok(fields)
}

/// The record that makes a page that is no inner one.
fn make(page: u32, kind: Kind) -> Record
    requires { page ≤ MAX_PAGE_ID }
    ensures { result ≡ Make page kind 0 }
{
    Record::Make {
        page: PageId::new(page).unwrap(),
        kind,
        level: 0,
    }
}

/// The records of the group that every log begins with.
pub fn opening_records(alloc: Global) -> Result<Records, WantOfMemory>
    ensures { IfOk result (λ records. records ≡ opening_records) }
{
    let mut records = Records::new(alloc);
    records.push(make(META_PAGE_ID, Kind::Meta))?;
    records.push(Record::Patch {
        page: PageId::new(META_PAGE_ID).unwrap(),
        at: META_FIELDS_AT,
        bytes: meta_fields(alloc)?,
    })?;
    records.push(make(SLOTS_PAGE_ID, Kind::Slots))?;
    records.push(make(CATALOG_ROOT_PAGE_ID, Kind::Leaf))?;
    records.push(make(FIRST_UNDO_PAGE_ID, Kind::Undo))?;
    Ok(records)
}
