ghost use Rattle.std.specs.Prelude.{IsTrue, ◌↔◌, IfOk};
ghost use Rattle.redo_record.specs.Effect.{CountsFrom, GroupsApply};
ghost use Rattle.page_image.specs.Image.{unmade};
ghost use Rattle.storage_service.specs.Storage.{AllApply};

use materialiser::try_merge;
use page_image::Page;
use redo_record::Groups;
use rm_base::{Lsn, MAX_PAGES, PageId, WantOfMemory};
use std::alloc::Global;

fn apply_to(alloc: Global, groups: &Groups, page: PageId) -> Result<bool, WantOfMemory>
    requires { CountsFrom 0 groups.now }
    ensures { IfOk result (λ apply. IsTrue apply ↔ GroupsApply groups.now (unmade page)) }
{
    let upto = Lsn::new(groups.len() as u64);
    let blank = Page::blank(alloc, page)?;
    let merged = try_merge(alloc, &blank, groups, upto)?;
    Ok(merged.is_ok())
}

/// Whether the groups' records for each page apply in order, where the LSNs are 1, 2 and so on.
pub fn all_apply(alloc: Global, groups: &Groups) -> Result<bool, WantOfMemory>
    requires { CountsFrom 0 groups.now }
    ensures { IfOk result (λ apply. IsTrue apply ↔ AllApply groups.now) }
{
    for number in 0..MAX_PAGES {
        let page = PageId::new(number).unwrap();
        if !apply_to(alloc, groups, page)? {
            return Ok(false);
        }
    }
    Ok(true)
}
