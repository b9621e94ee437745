use crate::{Known, KnownPage, KnownPages, Mini, Phase};
use fetch_steps::{Action, Told};
use message_network::{Reply, Seen};
use page_latches::{Holders, Latch, Mode};
use redo_record::{Plan, PlanKind, Records};
use rm_base::{Addr, Lsn, PageId, PageList};
use slab_node::SlabNo;
use std::alloc::Global;
use std::process::Abort;
use std::test::Fail;

/// An act, by its kind and its page.
#[derive(Clone, Copy, Debug, PartialEq, Eq)]
enum Act {
    Register(u32),
    TryX(u32),
    Release(u32),
    Look(u32),
    Read(u32),
    Write(u32),
    Clean(u32, u64),
    Invalidate(usize),
    Install,
    Finished,
    Other,
}

/// What is told, in short.
#[derive(Clone, Copy, Debug, PartialEq, Eq)]
enum Hears {
    Registered,
    Full,
    Granted,
    Busy,
    BitZero,
    Served,
    Down,
    Cleaned,
    Started,
    Done,
    Installed,
    Nothing,
}

fn act_of(action: &Action) -> Act {
    match action {
        Action::Register(page) => Act::Register(page.number()),
        Action::Latch(page, Mode::X) => Act::TryX(page.number()),
        Action::Release(page) => Act::Release(page.number()),
        Action::Look(page) => Act::Look(page.number()),
        Action::Read(page, _) => Act::Read(page.number()),
        Action::Write(page, _) => Act::Write(page.number()),
        Action::Clean(page, lsn) => Act::Clean(page.number(), lsn.number()),
        Action::Invalidate(pages) => Act::Invalidate(pages.as_slice().len()),
        Action::Install => Act::Install,
        Action::Finished => Act::Finished,
        _ => Act::Other,
    }
}

fn told_of(hears: Hears) -> Told {
    let addr = Addr::default();
    match hears {
        Hears::Registered => Told::Answer(Reply::Registered {
            addr,
            bit: true,
            floor: Lsn::new(7),
        }),
        Hears::Full => Told::Answer(Reply::PoolFull { slots: 4 }),
        Hears::Granted => Told::Latch(Latch::Granted),
        Hears::Busy => Told::Latch(Latch::Busy(Holders::Free)),
        Hears::BitZero => Told::Seen(Some(Seen {
            addr: Some(addr),
            bit: false,
            lsn: Lsn::new(5),
            floor: Lsn::new(7),
        })),
        Hears::Served => Told::Slab(Ok(())),
        Hears::Down => Told::Slab(Err(SlabNo::OldSlab)),
        Hears::Cleaned => Told::Cleaned(true),
        Hears::Started => Told::Answer(Reply::Started { due: 2 }),
        Hears::Done => Told::Answer(Reply::Done),
        Hears::Installed => Told::Installed,
        Hears::Nothing => Told::NoAnswer,
    }
}

/// Each act is the one that stands in the table, and is told what stands beside it.
fn walk(rt: &impl Abort, mini: &mut Mini, table: &[(Act, Hears)]) {
    for (act, hears) in table {
        assert_eq!(rt; act_of(&mini.next()), *act, "before {hears:?}");
        let told = told_of(*hears);
        mini.told(&told);
    }
}

/// What the node knows of a page.
#[derive(Clone, Copy, Debug, PartialEq, Eq)]
enum Has {
    Copy,
    Nothing,
    Unmade,
}

/// A plan of these pages whose group gets the LSN 9.
fn mini_of(alloc: Global, table: &[(u32, Has)]) -> Result<Mini, Fail> {
    let mut pages = PageList::new();
    let mut made = PageList::new();
    let mut known = KnownPages::new();
    for (number, has) in table {
        let page = PageId::new(*number).ok_or("page")?;
        pages.try_push(page).ok().ok_or("pages")?;
        if *has == Has::Unmade {
            made.try_push(page).ok().ok_or("made")?;
        }
        let addr = if *has == Has::Copy {
            Some(Addr::default())
        } else {
            None
        };
        let copy = *has == Has::Copy;
        known
            .try_push(KnownPage { addr, copy })
            .ok()
            .ok_or("known")?;
    }
    if known.as_slice().len() != pages.as_slice().len() {
        return Err(Fail::from("lengths"));
    }
    let plan = Plan {
        kind: PlanKind::Free,
        pages,
        made,
        records: Records::new(alloc),
    };
    let known = Known {
        lsn: Lsn::new(9),
        pages: known,
    };
    Ok(Mini::new(plan, known))
}

#[test]
fn a_plan_goes_through_its_phases(rt: HostRuntime) -> Result<(), Fail> {
    let mut mini = mini_of(
        rt.alloc(),
        &[(9, Has::Copy), (7, Has::Nothing), (8, Has::Unmade)],
    )?;
    let first = [
        (Act::Register(7), Hears::Registered),
        (Act::Look(7), Hears::BitZero),
        (Act::Read(7), Hears::Served),
        (Act::Register(8), Hears::Full),
        (Act::Register(8), Hears::Registered),
        (Act::TryX(9), Hears::Busy),
        (Act::TryX(9), Hears::Granted),
        (Act::TryX(7), Hears::Nothing),
        (Act::TryX(7), Hears::Granted),
        (Act::TryX(8), Hears::Granted),
        (Act::Invalidate(3), Hears::Started),
        (Act::Invalidate(3), Hears::Done),
    ];
    walk(&rt, &mut mini, &first);
    assert_eq!(rt; mini.phase(), Phase::Install);
    assert!(rt; !mini.is_installed());
    let last = [
        (Act::Install, Hears::Installed),
        (Act::Write(9), Hears::Served),
        (Act::Write(7), Hears::Nothing),
        (Act::Write(7), Hears::Served),
        (Act::Write(8), Hears::Served),
        (Act::Clean(9, 9), Hears::Cleaned),
        (Act::Clean(7, 9), Hears::Cleaned),
        (Act::Clean(8, 9), Hears::Cleaned),
        (Act::Release(9), Hears::Nothing),
        (Act::Release(9), Hears::Granted),
        (Act::Release(7), Hears::Granted),
        (Act::Release(8), Hears::Granted),
    ];
    walk(&rt, &mut mini, &last);
    assert_eq!(rt; act_of(&mini.next()), Act::Finished);
    assert_eq!(rt; mini.phase(), Phase::Finished);
    Ok(())
}

#[test]
fn a_lost_slab_sends_a_page_back(rt: HostRuntime) -> Result<(), Fail> {
    let mut mini = mini_of(rt.alloc(), &[(4, Has::Copy), (3, Has::Copy)])?;
    let table = [
        (Act::TryX(4), Hears::Granted),
        (Act::TryX(3), Hears::Granted),
        (Act::Invalidate(2), Hears::Done),
        (Act::Install, Hears::Installed),
        (Act::Write(4), Hears::Served),
        (Act::Write(3), Hears::Down),
        (Act::Register(3), Hears::Full),
        (Act::Register(3), Hears::Registered),
        (Act::Write(3), Hears::Served),
        (Act::Clean(4, 9), Hears::Down),
        (Act::Register(4), Hears::Registered),
        (Act::Write(4), Hears::Served),
        (Act::Clean(4, 9), Hears::Cleaned),
        (Act::Clean(3, 9), Hears::Cleaned),
        (Act::Release(4), Hears::Granted),
        (Act::Release(3), Hears::Granted),
    ];
    walk(&rt, &mut mini, &table);
    assert_eq!(rt; act_of(&mini.next()), Act::Finished);
    assert!(rt; mini.is_installed());
    Ok(())
}

#[test]
fn a_plan_that_is_given_up_releases_by_number(rt: HostRuntime) -> Result<(), Fail> {
    let mut mini = mini_of(
        rt.alloc(),
        &[(6, Has::Copy), (5, Has::Copy), (2, Has::Copy)],
    )?;
    let table = [
        (Act::TryX(6), Hears::Granted),
        (Act::TryX(5), Hears::Nothing),
    ];
    walk(&rt, &mut mini, &table);
    if mini.is_installed() {
        return Err(Fail::from("installed"));
    }
    mini.give_up();
    let rest = [
        (Act::Release(5), Hears::Nothing),
        (Act::Release(5), Hears::Granted),
        (Act::Release(6), Hears::Granted),
    ];
    walk(&rt, &mut mini, &rest);
    assert_eq!(rt; act_of(&mini.next()), Act::Finished);
    Ok(())
}
