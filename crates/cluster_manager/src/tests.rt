use crate::{Manager, Step, drop_slab, kick, renew_home, sweep};
use home_tables::Home;
use page_latches::NodeSet;
use rm_base::{Lsn, NodeId, PageId, SlabId, WantOfMemory};
use rmem_calls::register;
use slab_node::Slabs;
use std::alloc::Global;
use std::test::Fail;

fn page(number: u32) -> PageId {
    PageId::new(number).unwrap_or_default()
}

fn node(number: u8) -> NodeId {
    NodeId::new(number).unwrap_or_default()
}

/// One slab of one slot, which a page has that node 1 registered.
fn pool(alloc: Global) -> Result<(Home, Slabs), WantOfMemory> {
    let mut home = Home::new(alloc, Lsn::new(7))?;
    let mut slabs = Slabs::new(alloc, 1, 1)?;
    register(&mut home, &mut slabs, node(1), page(9))?;
    Ok((home, slabs))
}

#[test]
fn a_node_that_was_kicked_refers_to_no_page(rt: HostRuntime) -> Result<(), Fail> {
    let (mut home, _slabs) = pool(rt.alloc())?;
    assert!(rt; home.idle_page(SlabId::default()).is_none());
    kick(&mut home, node(1));
    assert!(rt; home.idle_page(SlabId::default()) == Some(page(9)));
    Ok(())
}

#[test]
fn a_page_of_a_slab_that_was_dropped_takes_a_slot(rt: HostRuntime) -> Result<(), Fail> {
    let (mut home, _slabs) = pool(rt.alloc())?;
    drop_slab(&mut home, SlabId::default());
    assert!(rt; home.takes_slot(page(9)));
    Ok(())
}

#[test]
fn a_sweep_frees_the_slot_of_a_page_with_bit_1(rt: HostRuntime) -> Result<(), Fail> {
    let (mut home, mut slabs) = pool(rt.alloc())?;
    assert!(rt; slabs.first_free().is_none());
    sweep(&mut home, &mut slabs, Lsn::new(8));
    assert!(rt; home.entry(page(9)).is_none());
    assert!(rt; slabs.first_free().is_some_and(|slot| slot.slot == 0));
    assert_eq!(rt; home.watermark().number(), 8);
    Ok(())
}

#[test]
fn a_renewed_home_is_empty(rt: HostRuntime) -> Result<(), Fail> {
    let (mut home, mut slabs) = pool(rt.alloc())?;
    assert!(rt; slabs.may_renew());
    renew_home(&mut home, &mut slabs, Lsn::new(8));
    assert!(rt; home.entry(page(9)).is_none());
    assert!(rt;
        slabs
            .first_free()
            .is_some_and(|slot| slot.incarnation.number() == 2)
    );
    Ok(())
}

/// Nodes 1 and 2.
fn two_nodes() -> NodeSet {
    let mut up = NodeSet::new();
    up.insert(node(1));
    up.insert(node(2));
    up
}

#[test]
fn a_takeover_begins_where_no_node_has_the_writes(rt: HostRuntime) -> Result<(), Fail> {
    let up = two_nodes();
    let mut all = two_nodes();
    all.insert(node(0));
    let mut manager = Manager::new();
    assert!(rt; manager.next(node(1), &all, true).is_none());
    manager.downed(node(0));
    assert!(rt; manager.next(node(1), &up, false).is_none());
    assert!(rt; manager.next(node(1), &up, true) == Some(Step::Fence));
    Ok(())
}
