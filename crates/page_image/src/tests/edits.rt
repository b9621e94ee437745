ghost use Rattle.page_image.specs.Image.{Follows};

use crate::{Kind, Page};
use rm_base::{Lsn, PageId};
use std::alloc::{AllocError, Global};
use std::process::Abort;
use std::test::Fail;

/// Where the walks of edits begin.
const SEEDS: [u32; 4] = [1, 77, 1234, 7001];

/// The LSN of the next change.
fn next_lsn(page: &Page) -> Lsn
    ensures { Follows page.now result }
{
    Lsn::new(page.lsn().number().saturating_add(1))
}

/// An item of 1 to 97 bytes.
fn item_of(alloc: Global, x: u32) -> Result<Vec<u8>, AllocError> {
    let mut item = Vec::new(alloc);
    for k in 0..1 + x % 97 {
        item.push((x.wrapping_add(k) % 251) as u8)?;
    }
    Ok(item)
}

/// The same edit of the page and of the list.
fn edit(alloc: Global, page: &mut Page, items: &mut Vec<Vec<u8>>, x: u32) -> Result<(), Fail> {
    let places = (items.len() % 2000) as u32 + 1;
    let place = (x / 7 % places) as u16;
    let lsn = next_lsn(page);
    match x % 16 {
        0..=10 => {
            let item = item_of(alloc, x)?;
            if page.can_insert(place, item.as_slice()) && usize::from(place) <= items.len() {
                page.insert_item(place, item.as_slice(), lsn);
                items.insert(usize::from(place), item)?;
            }
        }
        11..=14 => {
            if page.can_remove(place) && usize::from(place) < items.len() {
                page.remove_item(place, lsn);
                let _item = items.remove(usize::from(place));
            }
        }
        _ => {
            if page.can_cut(place) {
                page.cut(place, lsn);
                items.truncate(usize::from(place));
            }
        }
    }
    Ok(())
}

/// The page has these items and no others, and is accepted as it is stored.
fn compare(rt: &impl Abort, alloc: Global, page: &Page, items: &Vec<Vec<u8>>) -> Result<(), Fail> {
    assert_eq!(rt; usize::from(page.slots()), items.len());
    for (i, item) in items.iter().enumerate() {
        assert_eq!(rt; page.item(i), Some(item.as_slice()));
    }
    let again = Page::check(alloc, page.bytes())?.expect(rt, "a page");
    assert_eq!(rt; again.bytes(), page.bytes());
    Ok(())
}

#[test]
fn edits_are_those_of_a_list(rt: HostRuntime) -> Result<(), Fail> {
    for seed in SEEDS {
        let number = PageId::new(9).expect(&rt, "a page's number");
        let mut page = Page::blank(rt.alloc(), number)?;
        assert!(rt; page.can_make(Kind::Inner, 1));
        page.make(Kind::Inner, 1, Lsn::new(1));
        let mut items = Vec::new(rt.alloc());
        let mut x = seed;
        for _ in 0..400 {
            x = x.wrapping_mul(421).wrapping_add(1663) % 7875;
            edit(rt.alloc(), &mut page, &mut items, x)?;
            compare(&rt, rt.alloc(), &page, &items)?;
        }
    }
    Ok(())
}

#[test]
fn a_body_is_patched_and_lent(rt: HostRuntime) -> Result<(), Fail> {
    let number = PageId::new(1).expect(&rt, "a page's number");
    let mut page = Page::blank(rt.alloc(), number)?;
    assert!(rt; page.can_make(Kind::Slots, 0));
    page.make(Kind::Slots, 0, Lsn::new(1));
    assert!(rt; page.can_patch(40, &[1, 2, 3]));
    page.patch(40, &[1, 2, 3], Lsn::new(2));
    assert!(rt; page.can_lend(42, 2));
    page.slice_mut(42, 2).copy_from_slice(&[9, 8]);
    assert_eq!(rt; page.bytes().get(40..45), Some([1, 2, 9, 8, 0].as_slice()));
    assert_eq!(rt; page.lsn().number(), 2);
    assert!(rt; !page.can_lend(31, 2));
    assert!(rt; !page.can_patch(4095, &[1, 2]));
    let mut other = Page::blank(rt.alloc(), number)?;
    other.copy_from(&page);
    assert_eq!(rt; other.bytes(), page.bytes());
    assert!(rt; !page.can_link(5));
    Ok(())
}
