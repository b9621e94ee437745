use crate::{Action, FetchStep, Told};
use message_model::Got;
use message_network::{Reply, Seen};
use page_image::Page;
use page_latches::{Holders, Latch, Mode};
use rm_base::{Addr, Lsn, PageId};
use slab_node::SlabNo;
use std::alloc::Global;
use std::process::Abort;
use std::test::Fail;

/// An act, by its kind.
#[derive(Clone, Copy, Debug, PartialEq, Eq)]
enum Act {
    Register,
    TryS,
    TryX,
    Release,
    Look,
    Read,
    Get(u64),
    Write,
    Clean(u64),
    Finished,
    Other,
}

/// What is told, in short.
#[derive(Clone, Copy, Debug, PartialEq, Eq)]
enum Hears {
    Registered,
    Full,
    Granted,
    Busy,
    Bit(bool),
    Nowhere,
    NoEntry,
    Served,
    Down,
    Cleaned(bool),
    Image,
    NotYet,
    Nothing,
}

fn act_of(action: &Action) -> Act {
    match action {
        Action::Register(_) => Act::Register,
        Action::Latch(_, Mode::S) => Act::TryS,
        Action::Latch(_, Mode::X) => Act::TryX,
        Action::Release(_) => Act::Release,
        Action::Look(_) => Act::Look,
        Action::Read(_, _) => Act::Read,
        Action::Get(_, floor) => Act::Get(floor.number()),
        Action::Write(_, _) => Act::Write,
        Action::Clean(_, lsn) => Act::Clean(lsn.number()),
        Action::Finished => Act::Finished,
        _ => Act::Other,
    }
}

/// A look at an entry with floor 7, at an address or at none.
fn seen(bit: bool, addr: Option<Addr>) -> Told {
    Told::Seen(Some(Seen {
        addr,
        bit,
        lsn: Lsn::new(5),
        floor: Lsn::new(7),
    }))
}

fn told_of(alloc: Global, hears: Hears) -> Result<Told, Fail> {
    let addr = Addr::default();
    Ok(match hears {
        Hears::Registered => Told::Answer(Reply::Registered {
            addr,
            bit: true,
            floor: Lsn::new(7),
        }),
        Hears::Full => Told::Answer(Reply::PoolFull { slots: 4 }),
        Hears::Granted => Told::Latch(Latch::Granted),
        Hears::Busy => Told::Latch(Latch::Busy(Holders::Free)),
        Hears::Bit(bit) => seen(bit, Some(addr)),
        Hears::Nowhere => seen(true, None),
        Hears::NoEntry => Told::Seen(None),
        Hears::Served => Told::Slab(Ok(())),
        Hears::Down => Told::Slab(Err(SlabNo::Down)),
        Hears::Cleaned(there) => Told::Cleaned(there),
        Hears::Image => Told::Answer(Reply::Got(Got::Image(Page::blank(
            alloc,
            PageId::default(),
        )?))),
        Hears::NotYet => Told::Answer(Reply::Got(Got::NotYet {
            applied: Lsn::new(6),
        })),
        Hears::Nothing => Told::NoAnswer,
    })
}

/// Each act is the one that stands in the table, and is told what stands beside it.
fn walk(
    rt: &impl Abort,
    alloc: Global,
    fetch: &mut FetchStep,
    table: &[(Act, Hears)],
) -> Result<(), Fail> {
    for (act, hears) in table {
        assert_eq!(rt; act_of(&fetch.next()), *act, "before {hears:?}");
        let told = told_of(alloc, *hears)?;
        fetch.told(&told);
    }
    Ok(())
}

/// A fetch that is to register its page, by the RW or by another node.
fn fetch_by(writer: bool) -> FetchStep {
    FetchStep::new(PageId::default(), writer, None)
}

#[test]
fn a_node_reads_the_pool_or_loads_from_storage(rt: HostRuntime) -> Result<(), Fail> {
    let read = [
        (Act::Register, Hears::Full),
        (Act::Register, Hears::Registered),
        (Act::TryS, Hears::Busy),
        (Act::TryS, Hears::Granted),
        (Act::Look, Hears::Nothing),
        (Act::Look, Hears::Bit(false)),
        (Act::Read, Hears::Served),
    ];
    let mut fetch = fetch_by(false);
    walk(&rt, rt.alloc(), &mut fetch, &read)?;
    assert_eq!(rt; act_of(&fetch.next()), Act::Finished);
    let load = [
        (Act::TryS, Hears::Granted),
        (Act::Look, Hears::Bit(true)),
        (Act::Release, Hears::Granted),
        (Act::TryX, Hears::Granted),
        (Act::Look, Hears::Bit(true)),
        (Act::Get(7), Hears::NotYet),
        (Act::Get(7), Hears::Image),
        (Act::Write, Hears::Served),
        (Act::Clean(0), Hears::Cleaned(true)),
        (Act::TryS, Hears::Granted),
    ];
    let mut fetch = FetchStep::new(PageId::default(), false, Some(Addr::default()));
    walk(&rt, rt.alloc(), &mut fetch, &load)?;
    assert_eq!(rt; act_of(&fetch.next()), Act::Finished);
    Ok(())
}

#[test]
fn a_lost_slab_or_page_sends_the_fetch_back(rt: HostRuntime) -> Result<(), Fail> {
    let table = [
        (Act::Register, Hears::Registered),
        (Act::TryS, Hears::Granted),
        (Act::Look, Hears::Bit(false)),
        (Act::Read, Hears::Down),
        (Act::Release, Hears::Nothing),
        (Act::Release, Hears::Granted),
        (Act::Register, Hears::Registered),
        (Act::TryS, Hears::Granted),
        (Act::Look, Hears::Bit(true)),
        (Act::Release, Hears::Granted),
        (Act::TryX, Hears::Granted),
        (Act::Look, Hears::Nowhere),
        (Act::Release, Hears::Granted),
        (Act::Register, Hears::Registered),
        (Act::TryS, Hears::Granted),
        (Act::Look, Hears::NoEntry),
        (Act::Release, Hears::Granted),
        (Act::TryX, Hears::Granted),
        (Act::Look, Hears::Bit(false)),
        (Act::TryS, Hears::Granted),
        (Act::Look, Hears::Bit(false)),
        (Act::Read, Hears::Served),
    ];
    let mut fetch = fetch_by(false);
    walk(&rt, rt.alloc(), &mut fetch, &table)?;
    assert_eq!(rt; act_of(&fetch.next()), Act::Finished);
    Ok(())
}

#[test]
fn the_writer_takes_no_s(rt: HostRuntime) -> Result<(), Fail> {
    let table = [
        (Act::Register, Hears::Registered),
        (Act::Look, Hears::Bit(false)),
        (Act::Read, Hears::Down),
        (Act::Register, Hears::Registered),
        (Act::Look, Hears::Bit(true)),
        (Act::TryX, Hears::Granted),
        (Act::Look, Hears::Bit(false)),
        (Act::Release, Hears::Granted),
        (Act::Look, Hears::Bit(true)),
        (Act::TryX, Hears::Granted),
        (Act::Look, Hears::Bit(true)),
        (Act::Get(7), Hears::Image),
        (Act::Write, Hears::Served),
        (Act::Clean(0), Hears::Cleaned(true)),
        (Act::Release, Hears::Granted),
    ];
    let mut fetch = fetch_by(true);
    walk(&rt, rt.alloc(), &mut fetch, &table)?;
    assert_eq!(rt; act_of(&fetch.next()), Act::Finished);
    Ok(())
}

#[test]
fn a_given_up_fetch_releases_what_it_may_hold(rt: HostRuntime) -> Result<(), Fail> {
    let mut fetch = fetch_by(false);
    walk(
        &rt,
        rt.alloc(),
        &mut fetch,
        &[(Act::Register, Hears::Registered), (Act::TryS, Hears::Busy)],
    )?;
    fetch.give_up();
    assert_eq!(rt; act_of(&fetch.next()), Act::Finished);
    let mut fetch = fetch_by(false);
    walk(
        &rt,
        rt.alloc(),
        &mut fetch,
        &[
            (Act::Register, Hears::Registered),
            (Act::TryS, Hears::Nothing),
        ],
    )?;
    fetch.give_up();
    walk(
        &rt,
        rt.alloc(),
        &mut fetch,
        &[(Act::Release, Hears::Granted)],
    )?;
    assert_eq!(rt; act_of(&fetch.next()), Act::Finished);
    let mut fetch = fetch_by(false);
    walk(
        &rt,
        rt.alloc(),
        &mut fetch,
        &[
            (Act::Register, Hears::Registered),
            (Act::TryS, Hears::Granted),
        ],
    )?;
    fetch.have();
    assert_eq!(rt; act_of(&fetch.next()), Act::Finished);
    fetch.give_up();
    assert_eq!(rt; act_of(&fetch.next()), Act::Release);
    Ok(())
}
