ghost use Rattle.std.specs.Prelude.{◌≡◌, ◌≤◌, ◌<◌, ◌+◌, ◌-◌, length, IsTrue, ◌↔◌, IfOk};
ghost use Rattle.redo_record.specs.Effect.{changes, RecordsApply};
ghost use Rattle.page_chunks.specs.Entries.{image_of, Stands, EachStands, EachApplies};

use crate::entries::Entry;
use materialiser::replay;
use redo_record::Group;
use rm_base::{MAX_PAGES, PageId, WantOfMemory};
use std::alloc::Global;

/// Whether some record of the group is for the page.
fn concerns(g: &Group, p: PageId) -> bool
    ensures { result ≡ changes p g.now }
{
    g.records.as_slice().iter().any(|r| r.page() == p)
}

/// Whether the records of a group for the page apply in order after those that the entry has.
fn applies(alloc: Global, e: &Entry, p: PageId, g: &Group) -> Result<bool, WantOfMemory>
    requires some { 1 ≤ g.now.lsn }
    requires stands { Stands p (g.now.lsn - 1) e.now }
    ensures { IfOk result (λ b. IsTrue b ↔ RecordsApply g.now.lsn g.now.records (image_of p e.now)) }
{
    if !concerns(g, p) {
        return Ok(true);
    }
    let mut page = e.image(alloc, p)?;
    Ok(replay(&mut page, g).is_ok())
}

/// Whether the records of a group apply in order to the pages from `first` on.
pub(crate) fn all_apply(
    alloc: Global,
    entries: &[Entry],
    first: u32,
    g: &Group,
) -> Result<bool, WantOfMemory>
    requires some { 1 ≤ g.now.lsn }
    requires pages { first + length entries.now ≤ MAX_PAGES }
    requires stand { EachStands first (g.now.lsn - 1) entries.now }
    ensures { IfOk result (λ b. IsTrue b ↔ EachApplies first g.now entries.now) }
{
    for place in 0..entries.len() {
        let p = PageId::new(first + place as u32).unwrap();
        if !applies(alloc, &entries[place], p, g)? {
            return Ok(false);
        }
    }
    Ok(true)
}
