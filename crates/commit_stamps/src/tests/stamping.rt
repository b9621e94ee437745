//! Stamps of pages, before a commit and after it.
use super::pages::{blank, is_meta, is_page_of, is_slots, meta_page, run, slots_page, stamp_page};
use crate::{
    begin_plan, commit_plan, last_stamp, next_number, publish, slot_of, stamp_of, visible,
};
use page_image::Page;
use rm_base::{SessionId, Stamp, TrxId, WantOfMemory};
use std::alloc::Global;
use std::test::Fail;

/// The three pages of a transaction.
#[derive(Drop)]
struct Pages {
    meta: Page,
    slots: Page,
    stamps: Page,
}

/// The pages after the begin of transaction 509 in slot 1, which makes page 3.
fn begun(alloc: Global, s: SessionId) -> Result<Option<Pages>, WantOfMemory> {
    let Some(mut meta) = meta_page(alloc, 509, 4)? else {
        return Ok(None);
    };
    let Some(mut slots) = slots_page(alloc)? else {
        return Ok(None);
    };
    let Some(mut stamps) = blank(alloc, 3)? else {
        return Ok(None);
    };
    let number = next_number(&meta).number();
    if number < 1 || number > 520_193 {
        return Ok(None);
    }
    let Ok((_, plan)) = begin_plan(alloc, &meta, &slots, s)? else {
        return Ok(None);
    };
    run(&mut meta, &plan, 2);
    run(&mut slots, &plan, 2);
    run(&mut stamps, &plan, 2);
    Ok(Some(Pages {
        meta,
        slots,
        stamps,
    }))
}

/// The pages after its commit.
fn committed(alloc: Global, mut pages: Pages, s: SessionId) -> Result<Option<Pages>, WantOfMemory> {
    if !is_meta(&pages.meta) || !is_slots(&pages.slots) || last_stamp(&pages.meta).number() > 4 {
        return Ok(None);
    }
    if !is_page_of(&pages.stamps, &pages.slots, s) {
        return Ok(None);
    }
    let (_, plan) = commit_plan(alloc, &pages.meta, &pages.slots, &pages.stamps, s)?;
    run(&mut pages.meta, &plan, 3);
    run(&mut pages.slots, &plan, 3);
    run(&mut pages.stamps, &plan, 3);
    Ok(Some(pages))
}

/// The transaction in a slot, the next number, the last stamp, and the stamps of 509 and 510.
fn shown(pages: &Pages, s: SessionId) -> Option<[u64; 5]> {
    if !is_meta(&pages.meta) || !is_slots(&pages.slots) {
        return None;
    }
    let own = stamp_of(&pages.stamps, TrxId::new(509))?;
    let other = stamp_of(&pages.stamps, TrxId::new(510))?;
    Some([
        slot_of(&pages.slots, s).trx.number(),
        next_number(&pages.meta).number(),
        last_stamp(&pages.meta).number(),
        own.number(),
        other.number(),
    ])
}

#[test]
fn a_commit_sets_one_stamp_and_frees_one_slot(rt: HostRuntime) -> Result<(), Fail> {
    let session = SessionId::new(1).unwrap();
    let pages = begun(rt.alloc(), session)?.ok_or("no pages")?;
    assert_eq!(rt; shown(&pages, session), Some([509, 510, 4, 0, 0]));
    let pages = committed(rt.alloc(), pages, session)?.ok_or("no commit")?;
    assert_eq!(rt; shown(&pages, session), Some([0, 510, 5, 5, 0]));
    Ok(())
}

#[test]
fn a_stamp_page_has_its_own_transactions(rt: HostRuntime) -> Result<(), Fail> {
    let page = stamp_page(rt.alloc(), 3)?.ok_or("no page")?;
    let table = [
        (0, false),
        (508, false),
        (509, true),
        (1016, true),
        (1017, false),
    ];
    for (t, there) in table {
        assert_eq!(rt; stamp_of(&page, TrxId::new(t)).is_some(), there, "of {t}");
    }
    Ok(())
}

#[test]
fn a_snapshot_sees_the_commits_up_to_it(rt: HostRuntime) {
    let table = [(0, 9, false), (1, 0, false), (4, 4, true), (5, 4, false)];
    for (stamp, snap, seen) in table {
        assert_eq!(rt;
            visible(Stamp::new(stamp), Stamp::new(snap)),
            seen,
            "{stamp} at {snap}"
        );
    }
    let mut at = Stamp::new(4);
    publish(&mut at, Stamp::new(5));
    assert_eq!(rt; at.number(), 5);
}
