//! Where the numbers of transactions end, and where pages end.
ghost use Rattle.std.specs.Prelude.{◌≡◌, ◌∷◌, [], IfOk, IfSome, OnOk};
ghost use Rattle.bplus_tree.specs.Forest.{IsRoot};
ghost use Rattle.page_store.specs.Stored.{pages_of};
ghost use Rattle.tree_change.specs.Way.{IsWayTo};

use crate::items::{NONE, is_leaf, meta_page, slots_page, version};
use crate::trees::{put_key, start, way_to};
use commit_stamps::{begin_plan, next_number};
use page_store::PageStore;
use redo_record::{Path, Plan, TreeNo};
use rm_base::{CATALOG_ROOT_PAGE_ID, PageId, SessionId, WantOfMemory};
use std::alloc::Global;
use std::test::Fail;
use tree_change::plan_room;

/// The number that a transaction gets where this is the next one, and 0 where none is left. Nothing where
/// the pages cannot be made.
fn number_of(alloc: Global, next: u64) -> Result<Option<u64>, WantOfMemory> {
    let Some(meta) = meta_page(alloc, 1040, next)? else {
        return Ok(None);
    };
    let Some(slots) = slots_page(alloc)? else {
        return Ok(None);
    };
    let number = next_number(&meta).number();
    if number < 1 || number > 520_193 {
        return Ok(None);
    }
    match begin_plan(alloc, &meta, &slots, SessionId::new(5).unwrap())? {
        Err(_) => Ok(Some(0)),
        Ok(begun) => Ok(Some(begun.0.number())),
    }
}

#[test]
fn numbers_of_transactions_end(rt: HostRuntime) -> Result<(), Fail> {
    assert_eq!(rt; number_of(rt.alloc(), 520_192)?, Some(520_192));
    assert_eq!(rt; number_of(rt.alloc(), 520_193)?, Some(0));
    Ok(())
}

/// The page that the plan makes, if it makes one alone.
fn made_by(plan: &Plan) -> u32 {
    match plan.made.as_slice() {
        [page] => page.number(),
        _ => 0,
    }
}

/// How a plan of a split ended: the page that it makes, or whether no page is left.
#[derive(Clone, Copy, Debug, PartialEq, Eq)]
enum Ended {
    Makes(u32),
    SpaceFull,
    NoSplit,
}

fn end_of(split: Option<Result<Plan, TreeNo>>) -> Ended {
    match split {
        None => Ended::NoSplit,
        Some(Ok(plan)) => Ended::Makes(made_by(&plan)),
        Some(Err(TreeNo::SpaceFull)) => Ended::SpaceFull,
        Some(Err(_)) => Ended::NoSplit,
    }
}

/// The split for a large row of the key, where the meta page counts so many pages.
fn split_at(alloc: Global, path: &Path, key: u8, count: u32) -> Result<Ended, WantOfMemory>
    requires { IsWayTo (key ∷ []) path.now }
{
    let Some(meta) = meta_page(alloc, count, 1)? else {
        return Ok(Ended::NoSplit);
    };
    let item = version(alloc, key, 7, NONE, 900)?;
    if !is_leaf(&item) {
        return Ok(Ended::NoSplit);
    }
    Ok(end_of(plan_room(alloc, path, &meta, &item)?))
}

/// Rows with the keys 1 to 7, on two leaves, of which the second is full.
fn fill(alloc: Global, store: &mut PageStore, root: PageId) -> Result<(), WantOfMemory>
    requires { IsRoot (pages_of store.old) root }
    ensures { OnOk result (IsRoot (pages_of store.new) root) }
{
    for key in 1..8u8 {
        put_key(alloc, store, root, key)?;
    }
    Ok(())
}

/// The split of the second leaf, where the meta page counts the last page but one, the last, and past it.
fn splits(alloc: Global) -> Result<Option<[Ended; 3]>, WantOfMemory> {
    let mut store = start(alloc)?;
    let root = PageId::new(CATALOG_ROOT_PAGE_ID).unwrap();
    fill(alloc, &mut store, root)?;
    let Some(path) = way_to(alloc, &mut store, root, 8)? else {
        return Ok(None);
    };
    Ok(Some([
        split_at(alloc, &path, 8, 32_766)?,
        split_at(alloc, &path, 8, 32_767)?,
        split_at(alloc, &path, 8, 32_768)?,
    ]))
}

#[test]
fn splits_end_with_the_last_page(rt: HostRuntime) -> Result<(), Fail> {
    let ends = splits(rt.alloc())?.ok_or("no way")?;
    assert_eq!(rt;
        ends,
        [Ended::Makes(32_766), Ended::Makes(32_767), Ended::SpaceFull]
    );
    Ok(())
}
