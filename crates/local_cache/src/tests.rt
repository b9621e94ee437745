use crate::{Cached, LocalCache};
use page_image::Page;
use rm_base::{PageId, WantOfMemory};
use std::alloc::Global;
use std::test::Fail;

/// Keeps an unpinned copy of the page where there is room.
fn keep(alloc: Global, cache: &mut LocalCache, page: PageId) -> Result<(), WantOfMemory> {
    if cache.full() {
        return Ok(());
    }
    let copy = Cached {
        page: Page::blank(alloc, page)?,
        bit: false,
        pins: 0,
    };
    cache.put(page, copy)?;
    Ok(())
}

fn pin(cache: &mut LocalCache, page: PageId) {
    if cache.peek(page).is_some_and(|copy| copy.pins < 255) {
        cache.pin(page);
    }
}

fn unpin(cache: &mut LocalCache, page: PageId) {
    if cache.peek(page).is_some_and(|copy| copy.pins > 0) {
        cache.unpin(page);
    }
}

#[test]
fn the_oldest_copy_without_a_pin_goes(rt: HostRuntime) -> Result<(), Fail> {
    let mut cache = LocalCache::new(rt.alloc(), 3)?;
    let one = PageId::new(1).ok_or("one")?;
    let two = PageId::new(2).ok_or("two")?;
    let three = PageId::new(3).ok_or("three")?;
    keep(rt.alloc(), &mut cache, one)?;
    keep(rt.alloc(), &mut cache, two)?;
    keep(rt.alloc(), &mut cache, three)?;
    assert!(rt; cache.full());
    assert!(rt; cache.get(one).is_some());
    pin(&mut cache, two);
    assert_eq!(rt; cache.evict(), Some(three));
    assert_eq!(rt; cache.evict(), Some(one));
    assert_eq!(rt; cache.evict(), None);
    unpin(&mut cache, two);
    assert_eq!(rt; cache.evict(), Some(two));
    assert_eq!(rt; cache.len(), 0);
    Ok(())
}

#[test]
fn looking_and_writing_leave_the_order(rt: HostRuntime) -> Result<(), Fail> {
    let mut cache = LocalCache::new(rt.alloc(), 3)?;
    let one = PageId::new(1).ok_or("one")?;
    let two = PageId::new(2).ok_or("two")?;
    keep(rt.alloc(), &mut cache, one)?;
    keep(rt.alloc(), &mut cache, two)?;
    let other = Page::blank(rt.alloc(), two)?;
    if let Some(page) = cache.page_mut(one) {
        page.copy_from(&other);
    }
    assert_eq!(rt; cache.peek(one).map(|copy| copy.page.page()), Some(two));
    assert_eq!(rt; cache.evict(), Some(one));
    assert!(rt; !cache.drop_page(one));
    assert!(rt; cache.drop_page(two));
    keep(rt.alloc(), &mut cache, one)?;
    cache.clear();
    assert!(rt; cache.get(one).is_none());
    Ok(())
}

#[test]
fn a_cache_without_room_is_full(rt: HostRuntime) -> Result<(), Fail> {
    let cache = LocalCache::new(rt.alloc(), 0)?;
    assert!(rt; cache.full());
    Ok(())
}
