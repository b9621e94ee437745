ghost use Rattle.std.specs.Prelude.{◌≡◌, ◌∷◌, [], IfOk, OnOk};
ghost use Rattle.page_image.specs.declared.kind.Kind.TheVariants.{Leaf};
ghost use Rattle.redo_record.specs.declared.redo.Record.TheVariants.{Make, InsertSlot};
ghost use Rattle.page_store.specs.Stored.{given_back};
ghost use Rattle.page_store.specs.Opening.{opened};

use crate::*;
use page_image::Kind;
use redo_record::{Record, Records};
use rm_base::{
    Bytes, CATALOG_ROOT_PAGE_ID, FIRST_UNDO_PAGE_ID, META_PAGE_ID, PageId, SLOTS_PAGE_ID,
    WantOfMemory,
};
use std::alloc::Global;
use std::test::Fail;

/// The opening group as it is spelled.
const OPENING: &[u8] =
    b"\0\0\0\x4f\0\0\0\0\0\0\0\x01\0\x05\x01\0\0\0\0\x01\0\x02\0\0\0\0\0\x20\0\x1c\0\0\0\x01\0\0\x04\x04\0\0\x04\x03\0\0\0\0\0\0\0\x01\0\0\0\0\0\0\0\0\x01\0\0\0\x01\x02\0\x01\0\0\x04\x02\x04\0\x01\0\0\x04\x03\x06\0";

/// A group that makes page 1028 a leaf with an item, as it is spelled behind the opening.
const LEAF: &[u8] =
    b"\0\0\0\x20\0\0\0\0\0\0\0\x02\0\x02\x01\0\0\x04\x04\x04\0\x03\0\0\x04\x04\0\0\0\x02hi";

/// The records of that group.
fn leaf_records(alloc: Global) -> Result<Records, WantOfMemory>
    ensures { IfOk result (λ records. records ≡ Make 1028 Leaf 0 ∷ InsertSlot 1028 0 (104 ∷ 105 ∷ []) ∷ []) }
{
    let page = PageId::new(1028).unwrap();
    let mut bytes = Bytes::new(alloc);
    bytes.push(b'h')?;
    bytes.push(b'i')?;
    let mut records = Records::new(alloc);
    records.push(Record::Make {
        page,
        kind: Kind::Leaf,
        level: 0,
    })?;
    records.push(Record::InsertSlot {
        page,
        index: 0,
        bytes,
    })?;
    Ok(records)
}

/// Runs that group.
fn run_leaf(alloc: Global, store: &mut PageStore) -> Result<(), WantOfMemory>
    requires { store.old ≡ opened }
    ensures { OnOk result (given_back store.new ≡ opened) }
{
    store.run(alloc, leaf_records(alloc)?)
}

/// The item and the LSN of page 1028, where it is there.
fn leaf(store: &PageStore) -> Option<(&[u8], u64)> {
    let page = store.page(PageId::new(1028).unwrap())?;
    Some((page.item(0)?, page.lsn().number()))
}

#[test]
fn a_log_begins_with_the_opening(rt: HostRuntime) -> Result<(), Fail> {
    let store = PageStore::new(rt.alloc())?;
    assert_eq!(rt; store.log(), OPENING);
    let kinds = [
        (META_PAGE_ID, Kind::Meta),
        (SLOTS_PAGE_ID, Kind::Slots),
        (CATALOG_ROOT_PAGE_ID, Kind::Leaf),
        (FIRST_UNDO_PAGE_ID, Kind::Undo),
    ];
    for (number, kind) in kinds {
        let page = PageId::new(number).ok_or("no page")?;
        let found = store.page(page).map(|page| page.kind());
        assert_eq!(rt; found, Some(kind), "page {number}");
    }
    assert_eq!(rt; leaf(&store), None);
    Ok(())
}

#[test]
fn groups_are_kept_or_given_back(rt: HostRuntime) -> Result<(), Fail> {
    let mut store = PageStore::new(rt.alloc())?;
    run_leaf(rt.alloc(), &mut store)?;
    assert_eq!(rt; leaf(&store), Some((b"hi".as_slice(), 2)));
    assert_eq!(rt; store.log(), OPENING);

    store.give_back();
    assert_eq!(rt; leaf(&store), None);
    assert_eq!(rt; store.log(), OPENING);

    run_leaf(rt.alloc(), &mut store)?;
    store.keep();
    store.give_back();
    assert_eq!(rt; leaf(&store), Some((b"hi".as_slice(), 2)));
    let (first, second) = store.log().split_at(OPENING.len());
    assert_eq!(rt; first, OPENING);
    assert_eq!(rt; second, LEAF);
    Ok(())
}
