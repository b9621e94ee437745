use crate::{Slab, SlabNo, Slabs};
use page_image::Page;
use rm_base::{PageId, SlabId};
use std::test::Fail;

#[test]
fn the_least_free_slot_is_taken(rt: HostRuntime) -> Result<(), Fail> {
    let id = SlabId::new(3).ok_or("id")?;
    let mut slab = Slab::new(rt.alloc(), id, 8)?;
    let first = slab.take_slot().ok_or("first")?;
    let second = slab.take_slot().ok_or("second")?;
    assert_eq!(rt; (first.slot, second.slot), (0, 1));
    slab.free_slot(first);
    assert_eq!(rt; slab.take_slot().map(|address| address.slot), Some(0));
    assert_eq!(rt; slab.take_slot().map(|address| address.slot), Some(2));
    Ok(())
}

#[test]
fn what_is_written_is_read(rt: HostRuntime) -> Result<(), Fail> {
    let id = SlabId::new(3).ok_or("id")?;
    let mut slab = Slab::new(rt.alloc(), id, 8)?;
    let address = slab.take_slot().ok_or("address")?;
    let page = Page::blank(rt.alloc(), PageId::new(7).ok_or("page")?)?;
    let mut read = Page::blank(rt.alloc(), PageId::default())?;
    assert_eq!(rt; slab.write(address, &page), Ok(()));
    assert_eq!(rt; slab.read(address, &mut read), Ok(()));
    assert_eq!(rt; read.page().number(), 7);
    Ok(())
}

#[test]
fn a_slab_that_is_down_reads_nothing(rt: HostRuntime) -> Result<(), Fail> {
    let mut slab = Slab::new(rt.alloc(), SlabId::default(), 8)?;
    let address = slab.take_slot().ok_or("address")?;
    let mut read = Page::blank(rt.alloc(), PageId::default())?;
    slab.crash();
    assert_eq!(rt; slab.read(address, &mut read), Err(SlabNo::Down));
    assert_eq!(rt; slab.take_slot(), None);
    Ok(())
}

#[test]
fn a_slab_that_comes_back_has_other_addresses(rt: HostRuntime) -> Result<(), Fail> {
    let mut slab = Slab::new(rt.alloc(), SlabId::default(), 8)?;
    let address = slab.take_slot().ok_or("address")?;
    let mut read = Page::blank(rt.alloc(), PageId::default())?;
    slab.restart();
    assert_eq!(rt; slab.read(address, &mut read), Err(SlabNo::OldSlab));
    assert_eq!(rt; slab.take_slot().map(|fresh| fresh.slot), Some(0));
    Ok(())
}

#[test]
fn the_least_live_slab_with_a_free_slot(rt: HostRuntime) -> Result<(), Fail> {
    let mut slabs = Slabs::new(rt.alloc(), 2, 1)?;
    assert_eq!(rt; slabs.live_slots(), 2);
    let first = slabs.take_slot().ok_or("first")?;
    let second = slabs.take_slot().ok_or("second")?;
    assert_eq!(rt; (first.slab.number(), second.slab.number()), (0, 1));
    assert_eq!(rt; slabs.take_slot(), None);
    assert_eq!(rt; slabs.first_free(), None);
    Ok(())
}
