use crate::{clean, home_turn, invalidate, look, register, unregister};
use home_tables::{Access, Home};
use message_network::{Admit, Ask, Reply, Server};
use page_latches::{Holders, Latch, Mode, NodeSet};
use rm_base::{
    Addr, CallNo, Epoch, Incarnation, Lsn, NodeId, PageId, PageList, SlabId, Token, WantOfMemory,
};
use slab_node::Slabs;
use std::alloc::Global;
use std::test::Fail;

fn page(number: u32) -> PageId {
    PageId::new(number).unwrap_or_default()
}

fn node(number: u8) -> NodeId {
    NodeId::new(number).unwrap_or_default()
}

/// A home at watermark 7, and two slabs of two slots.
fn pool(alloc: Global) -> Result<(Home, Slabs), WantOfMemory> {
    let home = Home::new(alloc, Lsn::new(7))?;
    let slabs = Slabs::new(alloc, 2, 2)?;
    Ok((home, slabs))
}

/// The address that the answer tells.
fn told(reply: &Reply) -> Option<Addr> {
    match reply {
        Reply::Registered { addr, .. } => Some(*addr),
        _ => None,
    }
}

fn at(slab: u8, slot: u16) -> Addr {
    Addr {
        slab: SlabId::new(slab).unwrap_or_default(),
        incarnation: Incarnation::new(1),
        slot,
    }
}

/// Registers pages for nodes, a row each with the slab and the slot that are to be told. Whether each
/// row's were told.
fn all_told(
    home: &mut Home,
    slabs: &mut Slabs,
    rows: &[(u8, u32, u8, u16)],
) -> Result<bool, WantOfMemory> {
    for (number, of, slab, slot) in rows {
        let reply = register(home, slabs, node(*number), page(*of))?;
        if told(&reply) != Some(at(*slab, *slot)) {
            return Ok(false);
        }
    }
    Ok(true)
}

#[test]
fn a_page_takes_the_least_free_slot(rt: HostRuntime) -> Result<(), Fail> {
    let (mut home, mut slabs) = pool(rt.alloc())?;
    let rows = [(0, 5, 0, 0), (0, 3, 0, 1), (0, 9, 1, 0), (1, 3, 0, 1)];
    assert!(rt; all_told(&mut home, &mut slabs, &rows)?);
    assert!(rt;
        home.entry(page(9))
            .is_some_and(|entry| entry.bit && entry.floor.number() == 7)
    );
    Ok(())
}

#[test]
fn a_full_pool_gives_the_least_idle_page_away(rt: HostRuntime) -> Result<(), Fail> {
    let (mut home, mut slabs) = pool(rt.alloc())?;
    let rows = [(0, 5, 0, 0), (0, 3, 0, 1), (0, 9, 1, 0), (0, 4, 1, 1)];
    assert!(rt; all_told(&mut home, &mut slabs, &rows)?);
    let full = register(&mut home, &mut slabs, node(0), page(6))?;
    assert!(rt; matches!(full, Reply::PoolFull { slots: 4 }));
    clean(&mut home, page(3), Lsn::new(12));
    unregister(&mut home, node(0), page(9));
    unregister(&mut home, node(0), page(3));
    assert!(rt; all_told(&mut home, &mut slabs, &[(0, 6, 0, 1)])?);
    assert!(rt;
        home.entry(page(6))
            .is_some_and(|entry| entry.floor.number() == 12)
    );
    Ok(())
}

#[test]
fn a_look_finds_an_entry_or_none(rt: HostRuntime) -> Result<(), Fail> {
    let (mut home, mut slabs) = pool(rt.alloc())?;
    register(&mut home, &mut slabs, node(0), page(5))?;
    assert!(rt; look(&home, page(5)).is_some());
    assert!(rt; look(&home, page(8)).is_none());
    Ok(())
}

/// The due pairs that are left after node 1 changes page 5, of which these nodes are fresh.
fn due_after(home: &mut Home, fresh: NodeSet) -> Option<u32> {
    let mut pages = PageList::new();
    let _ = pages.try_push(page(5));
    match invalidate(home, node(0), &pages, &[fresh]) {
        Reply::Started { due } => Some(due),
        Reply::Done => Some(0),
        _ => None,
    }
}

fn nodes(one: u8, other: u8) -> NodeSet {
    let mut nodes = NodeSet::new();
    nodes.insert(node(one));
    nodes.insert(node(other));
    nodes
}

#[test]
fn an_invalidation_is_done_when_nobody_is_due(rt: HostRuntime) -> Result<(), Fail> {
    let (mut home, mut slabs) = pool(rt.alloc())?;
    assert!(rt;
        all_told(
            &mut home,
            &mut slabs,
            &[(0, 5, 0, 0), (1, 5, 0, 0), (2, 5, 0, 0)]
        )?
    );
    assert_eq!(rt; due_after(&mut home, nodes(1, 2)), Some(2));
    let up = nodes(0, 2);
    assert_eq!(rt;
        home_turn(&mut home, &up).map(|pair| pair.1.number()),
        Some(2)
    );
    assert!(rt; home_turn(&mut home, &up).is_none());
    assert_eq!(rt; due_after(&mut home, NodeSet::new()), Some(0));
    Ok(())
}

#[test]
fn a_reader_keeps_a_writer_out(rt: HostRuntime) -> Result<(), Fail> {
    let (mut home, mut slabs) = pool(rt.alloc())?;
    register(&mut home, &mut slabs, node(1), page(5))?;
    home.try_latch(page(5), node(1), Mode::S);
    let busy = home.try_latch(page(5), node(0), Mode::X);
    assert!(rt; matches!(busy, Some(Latch::Busy(Holders::Shared(_)))));
    home.access(page(5), Access::Release(node(1)));
    let granted = home.try_latch(page(5), node(0), Mode::X);
    assert!(rt; matches!(granted, Some(Latch::Granted)));
    Ok(())
}

/// Has the home handle the call where it was not handled yet, as its server says.
fn deliver(
    server: &mut Server,
    home: &mut Home,
    slabs: &mut Slabs,
    call: u64,
    ask: &Ask,
) -> Result<(), WantOfMemory> {
    let token = Token {
        node: node(1),
        incarnation: Incarnation::new(1),
        epoch: Epoch::new(1),
    };
    let call = CallNo::new(call);
    if !matches!(server.admit(token, call), Admit::New) {
        return Ok(());
    }
    let reply = match ask {
        Ask::Register(page) => register(home, slabs, token.node, *page)?,
        Ask::Unregister(page) => unregister(home, token.node, *page),
        _ => return Ok(()),
    };
    server.keep(token, call, reply);
    Ok(())
}

/// Has the home handle a call of node 2 about page 5 by its number: the first is its `register`, the
/// second its `unregister`.
fn deliver_all(
    server: &mut Server,
    home: &mut Home,
    slabs: &mut Slabs,
    calls: &[u64],
) -> Result<(), WantOfMemory> {
    for call in calls {
        let ask = if *call == 1 {
            Ask::Register(page(5))
        } else {
            Ask::Unregister(page(5))
        };
        deliver(server, home, slabs, *call, &ask)?;
    }
    Ok(())
}

#[test]
fn a_call_that_comes_again_after_its_unregister(rt: HostRuntime) -> Result<(), Fail> {
    let (mut home, mut slabs) = pool(rt.alloc())?;
    let mut server = Server::new(Epoch::new(1));
    deliver_all(&mut server, &mut home, &mut slabs, &[1])?;
    assert!(rt;
        home.entry(page(5))
            .is_some_and(|entry| !entry.refs.is_empty())
    );
    deliver_all(&mut server, &mut home, &mut slabs, &[2, 1, 2])?;
    assert!(rt;
        home.entry(page(5))
            .is_some_and(|entry| entry.refs.is_empty())
    );
    Ok(())
}
