use crate::{Access, Home};
use page_latches::NodeSet;
use rm_base::{Addr, Incarnation, Lsn, NodeId, PageId, SlabId, WantOfMemory};
use std::alloc::Global;
use std::test::Fail;

/// Registers the page for the node, with its slot where it has one.
fn register(home: &mut Home, page: PageId, node: NodeId, slot: u16) -> Result<(), WantOfMemory> {
    if !home.takes_slot(page) {
        home.access(page, Access::Refer(node));
        return Ok(());
    }
    let fresh = Addr {
        slab: SlabId::default(),
        incarnation: Incarnation::new(1),
        slot,
    };
    home.enter(page, node, fresh)
}

/// A home with one page, which a node registered.
fn home_with(alloc: Global, page: PageId, node: NodeId) -> Result<Home, WantOfMemory> {
    let mut home = Home::new(alloc, Lsn::new(5))?;
    register(&mut home, page, node, 3)?;
    Ok(home)
}

#[test]
fn a_page_is_entered_with_bit_1(rt: HostRuntime) -> Result<(), Fail> {
    let page = PageId::new(9).ok_or("page")?;
    let home = home_with(rt.alloc(), page, NodeId::default())?;
    assert!(rt;
        home.entry(page)
            .is_some_and(|entry| entry.bit && entry.floor.number() == 5)
    );
    Ok(())
}

#[test]
fn a_page_is_given_away(rt: HostRuntime) -> Result<(), Fail> {
    let page = PageId::new(9).ok_or("page")?;
    let mut home = home_with(rt.alloc(), page, NodeId::default())?;
    home.access(page, Access::Clean(Lsn::new(8)));
    assert!(rt; home.give_away(page).is_some());
    assert_eq!(rt; home.watermark().number(), 8);
    Ok(())
}

#[test]
fn the_first_due_page_at_a_node_that_is_up(rt: HostRuntime) -> Result<(), Fail> {
    let page = PageId::new(9).ok_or("page")?;
    let other = NodeId::new(2).ok_or("other")?;
    let mut home = home_with(rt.alloc(), page, other)?;
    let mut nodes = NodeSet::new();
    nodes.insert(other);
    home.invalidate(page, NodeId::default(), &nodes);
    assert_eq!(rt; home.turn(&nodes).map(|pair| pair.1.number()), Some(2));
    assert!(rt; home.turn(&nodes).is_none());
    Ok(())
}

#[test]
fn a_node_is_struck(rt: HostRuntime) -> Result<(), Fail> {
    let page = PageId::new(9).ok_or("page")?;
    let mut home = home_with(rt.alloc(), page, NodeId::default())?;
    home.release_all(NodeId::default());
    assert!(rt; home.idle_page(SlabId::default()) == Some(page));
    Ok(())
}

#[test]
fn a_slab_is_lost(rt: HostRuntime) -> Result<(), Fail> {
    let page = PageId::new(9).ok_or("page")?;
    let mut home = home_with(rt.alloc(), page, NodeId::default())?;
    home.drop_slab(SlabId::default());
    assert!(rt; home.takes_slot(page));
    Ok(())
}

#[test]
fn a_sweep_removes_a_page_with_bit_1(rt: HostRuntime) -> Result<(), Fail> {
    let page = PageId::new(9).ok_or("page")?;
    let mut home = home_with(rt.alloc(), page, NodeId::default())?;
    home.sweep(Lsn::new(8));
    assert!(rt; home.entry(page).is_none());
    assert_eq!(rt; home.watermark().number(), 8);
    Ok(())
}
