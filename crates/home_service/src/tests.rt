use crate::*;
use message_network::Reply;
use page_image::{Kind, Page};
use page_latches::{Latch, Mode, NodeSet};
use rm_base::{Addr, CallNo, Epoch, Incarnation, Lsn, NodeId, PageId, PageList, SlabId, Token};
use slab_node::SlabNo;
use std::test::Fail;

fn token(node: u8) -> Token {
    Token {
        node: NodeId::new(node).unwrap_or_default(),
        incarnation: Incarnation::new(1),
        epoch: Epoch::new(1),
    }
}

#[test]
fn a_register_is_handled_once(rt: HostRuntime) -> Result<(), Fail> {
    let mut home = HomeService::new(rt.alloc(), 1, 1, Lsn::new(3))?;
    let one = token(0);
    let page = PageId::new(7).unwrap();
    let other = PageId::new(8).unwrap();
    for _ in 0..2 {
        let reply = home.register(&one, CallNo::new(1), page)?;
        assert!(rt; matches!(reply, Some(Reply::Registered { bit: true, .. })));
    }
    let full = home.register(&one, CallNo::new(2), other)?;
    assert!(rt; matches!(full, Some(Reply::PoolFull { slots: 1 })));
    let parted = home.unregister(&one, CallNo::new(3), page);
    assert!(rt; matches!(parted, Some(Reply::Unregistered)));
    assert!(rt;
        home.register(&one, CallNo::new(2), other)?.is_none(),
        "an older call"
    );
    let given = home.register(&one, CallNo::new(4), other)?;
    assert!(rt; matches!(given, Some(Reply::Registered { .. })));
    assert!(rt; home.look(page).is_none() && home.look(other).is_some());
    Ok(())
}

#[test]
fn a_page_is_written_cleaned_and_read(rt: HostRuntime) -> Result<(), Fail> {
    let alloc = rt.alloc();
    let mut home = HomeService::new(alloc, 1, 4, Lsn::new(0))?;
    let page = PageId::new(7).unwrap();
    let node = NodeId::new(0).unwrap();
    home.register(&token(0), CallNo::new(1), page)?;
    assert!(rt; matches!(home.try_latch(page, node, Mode::X), Some(Latch::Granted)));
    let beside = home.try_latch(page, NodeId::new(1).unwrap(), Mode::S);
    assert!(rt; matches!(beside, Some(Latch::Busy(_))));
    let seen = home.look(page).ok_or("no entry")?;
    assert!(rt; seen.bit);
    let address = seen.addr.ok_or("no address")?;
    let mut image = Page::blank(alloc, page)?;
    image.make(Kind::Leaf, 0, Lsn::new(5));
    assert!(rt; home.write(&address, &image).is_ok());
    assert!(rt; home.clean(page, Lsn::new(5)));
    home.release(page, node);
    assert!(rt;
        home.look(page)
            .is_some_and(|seen| !seen.bit && seen.lsn.number() == 5)
    );
    let mut copy = Page::blank(alloc, page)?;
    assert!(rt; home.read(&address, &mut copy).is_ok());
    assert_eq!(rt; copy.lsn().number(), 5);
    Ok(())
}

#[test]
fn an_address_of_no_slot_is_refused(rt: HostRuntime) -> Result<(), Fail> {
    let alloc = rt.alloc();
    let home = HomeService::new(alloc, 1, 4, Lsn::new(0))?;
    let mut copy = Page::blank(alloc, PageId::new(7).unwrap())?;
    let rows = [
        (0, 2, 0, SlabNo::OldSlab),
        (0, 1, 4, SlabNo::OldSlab),
        (1, 1, 0, SlabNo::Down),
    ];
    for (slab, incarnation, slot, why) in rows {
        let address = Addr {
            slab: SlabId::new(slab).unwrap_or_default(),
            incarnation: Incarnation::new(incarnation),
            slot,
        };
        assert_eq!(rt; home.read(&address, &mut copy), Err(why));
    }
    Ok(())
}

#[test]
fn who_has_a_fresh_copy_is_due(rt: HostRuntime) -> Result<(), Fail> {
    let mut home = HomeService::new(rt.alloc(), 1, 4, Lsn::new(0))?;
    let page = PageId::new(7).unwrap();
    home.register(&token(0), CallNo::new(1), page)?;
    home.register(&token(1), CallNo::new(1), page)?;
    let mut pages = PageList::new();
    let _ = pages.try_push(page);
    let mut fresh = NodeSet::new();
    fresh.insert(NodeId::new(1).unwrap());
    let up = fresh.copy();
    if pages.len() != 1 {
        return Err("one page".into());
    }
    let clear = [fresh];
    let due = home.invalidate(&token(0), CallNo::new(2), &pages, &clear);
    assert!(rt; matches!(due, Some(Reply::Started { due: 1 })));
    assert!(rt; home.turn(&NodeSet::new()).is_none(), "nobody is up");
    assert!(rt; home.first_due(&up).is_some());
    let struck = home.turn(&up).ok_or("nobody is due")?;
    assert_eq!(rt; struck.0, page);
    assert!(rt; home.turn(&up).is_none() && home.first_due(&up).is_none());
    Ok(())
}
