//! Walks over undo pages that plans filled.
ghost use Rattle.std.specs.Prelude.{◌≡◌, IsTrue};
ghost use Rattle.undo_versions.specs.Walking.{want_of};

use super::pages::{blank, is_undo, meta_page, run, undo_item, undo_page, version};
use crate::{ChainWalk, ChainWant, UndoItem, UndoStep, append_plan};
use page_image::{Kind, Page};
use page_view::LeafItem;
use rm_base::{UndoPtr, WantOfMemory};
use std::alloc::Global;
use std::test::Fail;

const NONE: UndoPtr = UndoPtr { page: 0, slot: 0 };

/// Two undo pages, of which the second is made when the first is full.
#[derive(Drop)]
struct Pages {
    meta: Page,
    first: Page,
    second: Page,
}

/// The step that keeps an item. Nothing where no page is left.
fn step_for(
    alloc: Global,
    pages: &Pages,
    item: &UndoItem,
) -> Result<Option<UndoStep>, WantOfMemory> {
    if pages.meta.kind() != Kind::Meta || pages.first.kind() != Kind::Undo || !is_undo(item) {
        return Ok(None);
    }
    match append_plan(alloc, &pages.meta, &pages.first, item)? {
        Err(_) => Ok(None),
        Ok(step) => Ok(Some(step)),
    }
}

/// Keeps an item on one of the pages. Where it went, or nowhere.
fn kept(alloc: Global, pages: &mut Pages, item: &UndoItem) -> Result<UndoPtr, WantOfMemory> {
    match step_for(alloc, pages, item)? {
        None => Ok(NONE),
        Some(step) => {
            run(&mut pages.first, &step.records, 2);
            run(&mut pages.second, &step.records, 2);
            Ok(step.at)
        }
    }
}

/// Pages that are still empty; the second is the next one.
fn empty_pages(alloc: Global, first: u32, second: u32) -> Result<Option<Pages>, WantOfMemory> {
    let Some(meta) = meta_page(alloc, second)? else {
        return Ok(None);
    };
    let Some(first) = undo_page(alloc, first)? else {
        return Ok(None);
    };
    let Some(second) = blank(alloc, second)? else {
        return Ok(None);
    };
    Ok(Some(Pages {
        meta,
        first,
        second,
    }))
}

/// Fills the first page up to a few bytes.
fn fill(alloc: Global, pages: &mut Pages) -> Result<(), WantOfMemory> {
    for size in [983usize, 983, 983, 892, 20] {
        let old = version(alloc, 4, NONE, size)?;
        let item = undo_item(alloc, 5, NONE, Some(old))?;
        if let Some(step) = step_for(alloc, pages, &item)? {
            run(&mut pages.first, &step.records, 2);
        }
    }
    Ok(())
}

/// Undo page 1027 with a few free bytes.
pub fn full_page(alloc: Global) -> Result<Option<Page>, WantOfMemory> {
    let Some(mut pages) = empty_pages(alloc, 1027, 1040)? else {
        return Ok(None);
    };
    fill(alloc, &mut pages)?;
    let Pages {
        meta: _,
        first,
        second: _,
    } = pages;
    Ok(Some(first))
}

/// A transaction replaces a version of key 7, which is kept, or puts it in. Its own version.
fn replaced(
    alloc: Global,
    pages: &mut Pages,
    trx: u64,
    old: Option<LeafItem>,
) -> Result<LeafItem, WantOfMemory> {
    let item = undo_item(alloc, trx, NONE, old)?;
    let at = kept(alloc, pages, &item)?;
    version(alloc, trx, at, 10)
}

/// Key 7 is put in by transaction 1 and changed by 2 and 3, the last when the first page is full. The
/// newest version.
fn changed(alloc: Global, pages: &mut Pages) -> Result<LeafItem, WantOfMemory> {
    let first = replaced(alloc, pages, 1, None)?;
    let second = replaced(alloc, pages, 2, Some(first))?;
    fill(alloc, pages)?;
    replaced(alloc, pages, 3, Some(second))
}

/// One step of a walk: the transaction of the version that is passed, the page that is given, or 0 at
/// the end.
fn stepped(walk: &mut ChainWalk, pages: &Pages) -> Result<u64, WantOfMemory> {
    match walk.next() {
        ChainWant::End => Ok(0),
        ChainWant::Version(trx) => {
            pass(walk);
            Ok(trx.number())
        }
        ChainWant::Need(page) => {
            give(walk, pages)?;
            Ok(u64::from(page.number()))
        }
    }
}

fn pass(walk: &mut ChainWalk) {
    if walk.item().is_some() {
        walk.pass();
    }
}

/// Gives the one of the pages that is wanted.
fn give(walk: &mut ChainWalk, pages: &Pages) -> Result<(), WantOfMemory> {
    if is_wanted(walk, &pages.first) {
        return walk.give(&pages.first);
    }
    if is_wanted(walk, &pages.second) {
        return walk.give(&pages.second);
    }
    Ok(())
}

fn is_wanted(walk: &ChainWalk, page: &Page) -> bool
    ensures { IsTrue result → want_of walk.now ≡ ChainWant.Need page.now.page }
{
    match walk.next() {
        ChainWant::Need(wanted) => wanted.number() == page.page().number(),
        _ => false,
    }
}

#[test]
fn a_walk_comes_to_each_version_over_two_pages(rt: HostRuntime) -> Result<(), Fail> {
    let mut pages = empty_pages(rt.alloc(), 1027, 1040)?.ok_or("no pages")?;
    let newest = changed(rt.alloc(), &mut pages)?;
    assert_eq!(rt; (newest.older.page, newest.older.slot), (1040, 0));
    let mut walk = ChainWalk::new(rt.alloc(), newest);
    for want in [3, 1040, 2, 1027, 1, 1027, 0] {
        assert_eq!(rt; stepped(&mut walk, &pages)?, want);
    }
    Ok(())
}
