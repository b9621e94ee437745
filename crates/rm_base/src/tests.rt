ghost use Rattle.std.specs.Prelude.{◌≡◌, IfOk};

use crate::*;
use std::alloc::Global;
use std::test::Fail;

const BYTES: [u8; 14] = [0, 0, 0, 21, 0, 0, 0, 0, 0, 0, 0, 9, 0x10, 0x27];

#[test]
fn fields_read_the_highest_byte_first(rt: HostRuntime) {
    assert_eq!(rt; get_u32(&BYTES, 0), 21);
    assert_eq!(rt; get_u64(&BYTES, 4), 9);
    assert_eq!(rt; get_u16(&BYTES, 12), 4135);
    field_laws();
}

#[test]
fn fields_write_the_highest_byte_first(rt: HostRuntime) {
    let mut bytes = [0xffu8; 14];
    put_u32(&mut bytes, 0, 21);
    put_u64(&mut bytes, 4, 9);
    put_u16(&mut bytes, 12, 4135);
    assert_eq!(rt; bytes, BYTES);
}

#[test]
fn fields_join_a_list_highest_byte_first(rt: HostRuntime) -> Result<(), Fail> {
    let mut bytes = Items::new(rt.alloc());
    push_u32(&mut bytes, 21)?;
    push_u64(&mut bytes, 9)?;
    push_u16(&mut bytes, 4135)?;
    assert_eq!(rt; bytes.as_slice(), BYTES.as_slice());
    Ok(())
}

#[test]
fn identifiers_end_at_their_bounds(rt: HostRuntime) {
    assert!(rt; NodeId::new(15).is_some() && NodeId::new(16).is_none());
    assert!(rt; SlabId::new(15).is_some() && SlabId::new(16).is_none());
    assert!(rt; SessionId::new(63).is_some() && SessionId::new(64).is_none());
    assert!(rt; PageId::new(MAX_PAGE_ID).is_some() && PageId::new(MAX_PAGES).is_none());
}

fn items(alloc: Global, bytes: &[u8]) -> Result<Bytes, WantOfMemory>
    ensures { IfOk result (λ list. list ≡ bytes.now) }
{
    let mut list = Items::new(alloc);
    list.append(bytes)?;
    Ok(list)
}

#[test]
fn lists_grow_and_shrink(rt: HostRuntime) -> Result<(), Fail> {
    let mut list = items(rt.alloc(), b"ann")?;
    list.push(b'e')?;
    if let Some(last) = list.get_mut(3) {
        *last = b'y';
    }
    assert_eq!(rt; list.remove(0), b'a');
    assert_eq!(rt; list.pop(), Some(b'y'));
    assert_eq!(rt; list.copy(rt.alloc())?.as_slice(), b"nn".as_slice());
    Ok(())
}

#[test]
fn a_full_list_refuses_and_stays(rt: HostRuntime) {
    let mut pages: PageList = Few::new();
    for n in 0..8 {
        assert_eq!(rt; pages.try_push(PageId::new(n).unwrap()), Ok(()));
    }
    assert_eq!(rt; pages.try_push(PageId::default()), Err(Full));
    assert_eq!(rt; pages.remove(0).number(), 0);
    assert_eq!(rt; pages.pop().map(|page| page.number()), Some(7));
    assert_eq!(rt; pages.len(), 6);
}

#[test]
fn names_have_1_to_32_bytes(rt: HostRuntime) -> Result<(), Fail> {
    let letters = [b'x'; 33];
    for (n, good) in [(0usize, false), (1, true), (32, true), (33, false)] {
        let name = Name::new(items(rt.alloc(), &letters[..n])?);
        assert_eq!(rt; name.is_some(), good, "{n} letters");
    }
    Ok(())
}
