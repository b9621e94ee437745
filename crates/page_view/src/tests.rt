use crate::{search, *};
use page_image::{Kind, Page};
use rm_base::{Lsn, PageId, WantOfMemory};
use std::alloc::Global;
use std::test::Fail;

/// A page of the kind with the items, each at the end. None where one does not fit.
fn page_with(alloc: Global, kind: Kind, items: &[&[u8]]) -> Result<Option<Page>, WantOfMemory> {
    let mut page = Page::blank(alloc, PageId::new(1028).unwrap())?;
    let level = u8::from(kind == Kind::Inner);
    if !page.can_make(kind, level) {
        return Ok(None);
    }
    page.make(kind, level, Lsn::new(1));
    for item in items {
        let end = page.slots();
        if page.lsn().number() > 1 || !page.can_insert(end, item) {
            return Ok(None);
        }
        page.insert_item(end, item, Lsn::new(1));
    }
    Ok(Some(page))
}

/// Key 7, live, transaction 1, older version at (1027, 0), value 'ann' and NULL.
const ANN: [u8; 31] = [
    8, 0x80, 0, 0, 0, 0, 0, 0, 7, 0, 0, 0, 0, 0, 0, 0, 0, 1, 0, 0, 4, 3, 0, 0, 2, 0, 3, b'a', b'n',
    b'n', 0,
];

#[test]
fn a_leaf_item_is_read_from_what_the_format_shows(rt: HostRuntime) -> Result<(), Fail> {
    let page = page_with(rt.alloc(), Kind::Leaf, &[&ANN])?.ok_or("no page")?;
    let view = LeafView::over(&page).ok_or("no leaf")?;
    assert_eq!(rt; view.count(), 1);
    assert!(rt; view.item(1).is_none());
    let item = view.item(0).ok_or("no item")?;
    assert_eq!(rt; item.key(), &ANN[1..9]);
    assert_eq!(rt; item.value(), b"\x02\0\x03ann\0".as_slice());
    assert!(rt; !item.deleted());
    assert_eq!(rt; item.trx().number(), 1);
    assert_eq!(rt; (item.older().page, item.older().slot), (1027, 0));
    let own = item.to_item(rt.alloc())?;
    assert_eq!(rt; own.key.as_slice(), item.key());
    assert!(rt; InnerView::over(&page).is_none() && UndoView::over(&page).is_none());
    assert!(rt; StampView::over(&page).is_none());
    leaf_laws();
    inner_laws();
    undo_laws();
    Ok(())
}

#[test]
fn bytes_that_spell_no_leaf_item_are_none(rt: HostRuntime) {
    let mut flag = ANN;
    flag[9] = 2;
    let mut long_key = ANN;
    long_key[0] = 65;
    let cases: [(&[u8], bool); 6] = [
        (&ANN, true),
        (&ANN[..24], true),
        (&ANN[..23], false),
        (&flag, false),
        (&long_key, false),
        (&[], false),
    ];
    for (item, some) in cases {
        assert_eq!(rt; LeafRef::read(item).is_some(), some, "{item:?}");
    }
}

#[test]
fn inner_items_are_read_up_to_keys_of_255_bytes(rt: HostRuntime) -> Result<(), Fail> {
    let mut long = [b'k'; 260];
    long[0] = 255;
    long[256..].copy_from_slice(&[0, 0, 4, 5]);
    let least = b"\0\0\0\x04\x04";
    let page = page_with(rt.alloc(), Kind::Inner, &[least, &long])?.ok_or("no page")?;
    let view = InnerView::over(&page).ok_or("no inner page")?;
    assert_eq!(rt; view.count(), 2);
    let item = view.item(1).ok_or("no item")?;
    assert_eq!(rt; item.key().len(), 255);
    assert_eq!(rt; item.child().number(), 1029);
    assert_eq!(rt; view.item(0).map(|item| item.key().len()), Some(0));
    assert!(rt;
        InnerRef::read(b"\0\0\0\x80\0").is_none(),
        "a child past the last page"
    );
    assert!(rt;
        InnerRef::read(b"\0\0\0\x04\x04\0").is_none(),
        "a byte left over"
    );
    Ok(())
}

const UNDO: [u8; 19] = [0, 0, 0, 0, 0, 0, 0, 9, 0, 0, 4, 4, 0, 0, 4, 3, 0, 2, 1];

#[test]
fn undo_items_are_read_with_what_was_there(rt: HostRuntime) -> Result<(), Fail> {
    let mut old = [0u8; 50];
    old[..19].copy_from_slice(&UNDO);
    old[19..].copy_from_slice(&ANN);
    let mut absent = [0u8; 22];
    absent[..18].copy_from_slice(&UNDO[..18]);
    absent[19..].copy_from_slice(b"\x02ab");
    let page = page_with(rt.alloc(), Kind::Undo, &[&old, &absent])?.ok_or("no page")?;
    let view = UndoView::over(&page).ok_or("no undo page")?;
    assert_eq!(rt; view.count(), 2);
    let item = view.item(0).ok_or("no item")?;
    assert_eq!(rt; item.trx().number(), 9);
    assert_eq!(rt; item.root().number(), 1028);
    assert_eq!(rt; (item.before().page, item.before().slot), (1027, 2));
    assert_eq!(rt; item.key(), &ANN[1..9]);
    assert_eq!(rt; item.old().map(|leaf| leaf.value().len()), Some(7));
    let item = view.item(1).ok_or("no item")?;
    assert_eq!(rt; item.key(), b"ab".as_slice());
    assert!(rt; item.old().is_none());
    assert!(rt; UndoRef::read(&absent[..21]).is_none(), "a key cut short");
    Ok(())
}

#[test]
fn stamps_are_read_by_their_place(rt: HostRuntime) -> Result<(), Fail> {
    let page = page_with(rt.alloc(), Kind::Stamps, &[])?.ok_or("no page")?;
    let view = StampView::over(&page).ok_or("no stamp page")?;
    assert_eq!(rt; view.stamp(507).map(|stamp| stamp.number()), Some(0));
    assert!(rt; view.stamp(508).is_none());
    Ok(())
}

#[test]
fn keys_are_found_by_halves(rt: HostRuntime) -> Result<(), Fail> {
    let items: [&[u8]; 5] = [
        b"\0\0\0\x04\x04",
        b"\x01b\0\0\x04\x05",
        b"\x01d\0\0\x04\x06",
        b"\x02da\0\0\x04\x07",
        b"\x01f\0\0\x04\x08",
    ];
    let page = page_with(rt.alloc(), Kind::Inner, &items)?.ok_or("no page")?;
    let view = InnerView::over(&page).ok_or("no inner page")?;
    let cases: [(&[u8], usize); 9] = [
        (b"", 0),
        (b"a", 0),
        (b"b", 1),
        (b"c", 1),
        (b"d", 2),
        (b"d\0", 2),
        (b"da", 3),
        (b"e", 3),
        (b"\xff", 4),
    ];
    for (key, place) in cases {
        assert_eq!(rt; child_place(&view, key), Some(place), "{key:?}");
    }
    let mut turned = items;
    turned.swap(1, 4);
    let page = page_with(rt.alloc(), Kind::Inner, &turned)?.ok_or("no page")?;
    assert!(rt; !InnerView::over(&page).ok_or("no inner page")?.keys_ascend());
    let page = page_with(rt.alloc(), Kind::Leaf, &[&ANN])?.ok_or("no page")?;
    let view = LeafView::over(&page).ok_or("no leaf")?;
    assert!(rt; view.keys_ascend());
    assert_eq!(rt; place(&view, &ANN[1..9]), Some(Ok(0)));
    assert_eq!(rt; place(&view, b""), Some(Err(0)));
    assert_eq!(rt; place(&view, b"\xff"), Some(Err(1)));
    Ok(())
}

fn place(view: &LeafView<'_>, key: &[u8]) -> Option<Result<usize, usize>> {
    if view.keys_ascend() {
        Some(view.find(key))
    } else {
        None
    }
}

fn child_place(view: &InnerView<'_>, key: &[u8]) -> Option<usize> {
    if view.count() > 0 && view.keys_ascend() && view.least_is_empty() {
        return Some(view.child_for(key));
    }
    None
}

/// An inner page of 400 items, whose keys are the numbers from 0 on in two bytes.
fn numbered(alloc: Global) -> Result<Option<Page>, WantOfMemory> {
    let mut page = Page::blank(alloc, PageId::new(1028).unwrap())?;
    if !page.can_make(Kind::Inner, 1) {
        return Ok(None);
    }
    page.make(Kind::Inner, 1, Lsn::new(1));
    for n in 0..400u16 {
        let [high, low] = n.to_be_bytes();
        let item = [2, high, low, 0, 0, 4, 4];
        if page.lsn().number() > 1 || !page.can_insert(n, &item) {
            return Ok(None);
        }
        page.insert_item(n, &item, Lsn::new(1));
    }
    Ok(Some(page))
}

fn looks(page: &Page, key: &[u8]) -> Option<(Result<usize, usize>, u32)> {
    if search::keys_ascend(page) {
        Some(search::halve(page, key))
    } else {
        None
    }
}

#[test]
fn each_of_400_keys_is_found_in_9_looks_at_most(rt: HostRuntime) -> Result<(), Fail> {
    let page = numbered(rt.alloc())?.ok_or("no page")?;
    let mut most = 0;
    for n in 0..400u16 {
        let (found, looks) = looks(&page, &n.to_be_bytes()).ok_or("the keys do not ascend")?;
        assert_eq!(rt; found, Ok(usize::from(n)));
        most = looks.max(most);
    }
    assert_eq!(rt; most, 9);
    Ok(())
}
