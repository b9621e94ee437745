ghost use Rattle.std.specs.Prelude.{IfOk};
ghost use Rattle.coherent_pool.specs.Keeping.{IsNode};

use crate::{HomeAsk, NodeCalls, PoolNode, Wants};
use message_network::{Body, Draft, Message, Party, Reply, Seen};
use page_image::Page;
use rm_base::{Addr, Epoch, Incarnation, Lsn, MsgNo, NodeId, PageId, SlabId, Token};
use std::alloc::Global;
use std::test::Fail;

/// Where the page stands in the pool.
fn address() -> Result<Addr, Fail> {
    Ok(Addr {
        slab: SlabId::new(0).ok_or("slab")?,
        incarnation: Incarnation::new(1),
        slot: 3,
    })
}

/// The node is told what it waits for, with that bit in each look. What it wanted comes back.
#[tactic(auto, using(crate::proofs::WhatIsWanted::shares, crate::proofs::WhatIsWanted::excludes, crate::proofs::WhatIsWanted::releases, crate::proofs::WhatIsWanted::looking, crate::proofs::WhatIsWanted::reading, crate::proofs::WhatIsWanted::writing, crate::proofs::WhatIsWanted::cleaning))]
fn tell(alloc: Global, node: &mut PoolNode, page: PageId, bit: bool) -> Result<Wants, Fail>
    requires { IsNode node.old }
    ensures { IsNode node.new }
{
    let wants = node.wants(page);
    let addr = address()?;
    if !node.has_room(page) {
        return Err("room".into());
    }
    match wants {
        Wants::Share => node.granted_s(alloc, page)?,
        Wants::Exclude => node.granted_x(page),
        Wants::Release => node.released(alloc, page)?,
        Wants::Look => node.looked(
            page,
            Some(Seen {
                addr: Some(addr),
                bit,
                lsn: Lsn::new(0),
                floor: Lsn::new(0),
            }),
        ),
        Wants::Read => node.read(page, Page::blank(alloc, page)?)?,
        Wants::Write => node.wrote(page),
        Wants::Clean => node.cleaned(page),
        _ => answer(alloc, node, page)?,
    }
    Ok(wants)
}

/// The node is told the answer that it waits for, if any.
fn answer(alloc: Global, node: &mut PoolNode, page: PageId) -> Result<(), Fail>
    requires { IsNode node.old }
    ensures { IsNode node.new }
{
    let addr = address()?;
    let image = Page::blank(alloc, page)?;
    if node.takes_registration(page) {
        node.registered(page, addr, true, Lsn::new(0));
    } else if node.takes_image(page) {
        node.got(page, image);
    } else {
        plan(alloc, node, page)?;
    }
    Ok(())
}

/// The node is told of the act of a page of a plan.
#[tactic(auto, using(crate::proofs::WhatIsWanted::installing, crate::proofs::WhatIsWanted::writing_copy, crate::proofs::WhatIsWanted::cleaning_copy, crate::proofs::WhatIsWanted::entering))]
fn plan(alloc: Global, node: &mut PoolNode, page: PageId) -> Result<(), Fail>
    requires { IsNode node.old }
    ensures { IsNode node.new }
{
    let addr = address()?;
    match node.wants(page) {
        Wants::Install => node.install(page, Page::blank(alloc, page)?),
        Wants::WriteCopy => node.wrote_copy(page),
        Wants::CleanCopy => node.cleaned_copy(page),
        Wants::RegisterAgain => node.registered_again(page, addr),
        _ => {
            if node.takes_invalidate(page) {
                node.invalidated(page, true);
            }
        }
    }
    Ok(())
}

/// What a node wants of a page, act by act, until nothing is left.
fn way(alloc: Global, node: &mut PoolNode, page: PageId, bit: bool) -> Result<Vec<Wants>, Fail>
    requires { IsNode node.old }
    ensures { IsNode node.new }
{
    let mut wanted = Vec::new(alloc);
    'acts: for _ in 0..20 {
        let wants = tell(alloc, node, page, bit)?;
        wanted.push(wants)?;
        if matches!(wants, Wants::Nothing) {
            break 'acts;
        }
    }
    Ok(wanted)
}

/// A node with room for two copies.
fn node(alloc: Global, writer: bool) -> Result<PoolNode, Fail>
    ensures { IfOk result IsNode }
{
    let node = PoolNode::new(alloc, writer, 2)?;
    Ok(node)
}

/// A fetch of the page begins, and is carried to its end.
fn fetch(alloc: Global, node: &mut PoolNode, page: PageId, bit: bool) -> Result<Vec<Wants>, Fail>
    requires { IsNode node.old }
    ensures { IsNode node.new }
{
    if node.is_busy(page) || node.has_page(page) {
        return Err("busy".into());
    }
    node.fetch(page)?;
    way(alloc, node, page, bit)
}

#[test]
fn a_page_that_the_pool_lacks_is_loaded(rt: HostRuntime) -> Result<(), Fail> {
    let page = PageId::new(7).ok_or("page")?;
    let mut node = node(rt.alloc(), false)?;
    let wanted = fetch(rt.alloc(), &mut node, page, true)?;
    assert_eq!(rt;
        wanted.as_slice(),
        [
            Wants::Register,
            Wants::Share,
            Wants::Look,
            Wants::Release,
            Wants::Exclude,
            Wants::Look,
            Wants::Get,
            Wants::Write,
            Wants::Clean,
            Wants::Share,
            Wants::Nothing,
        ]
        .as_slice()
    );
    assert!(rt; node.copy(page).is_some());
    assert_eq!(rt; node.address(page), Some(address()?));
    Ok(())
}

#[test]
fn the_writer_reads_a_page_of_the_pool(rt: HostRuntime) -> Result<(), Fail> {
    let page = PageId::new(7).ok_or("page")?;
    let mut node = node(rt.alloc(), true)?;
    let wanted = fetch(rt.alloc(), &mut node, page, false)?;
    assert_eq!(rt;
        wanted.as_slice(),
        [Wants::Register, Wants::Look, Wants::Read, Wants::Nothing].as_slice()
    );
    assert!(rt; node.has_page(page));
    assert!(rt; !node.is_busy(page));
    Ok(())
}

#[test]
fn a_copy_without_a_fetch_goes(rt: HostRuntime) -> Result<(), Fail> {
    let page = PageId::new(7).ok_or("page")?;
    let mut node = node(rt.alloc(), true)?;
    fetch(rt.alloc(), &mut node, page, false)?;
    assert_eq!(rt; node.evict_oldest(), Some(page));
    assert_eq!(rt; node.first_leaving(), Some(page));
    if !node.is_busy(page) {
        node.part(page);
    }
    assert!(rt; node.first_leaving().is_none());
    assert_eq!(rt; node.address(page), None);
    Ok(())
}

fn token() -> Result<Token, Fail> {
    Ok(Token {
        node: NodeId::new(2).ok_or("node")?,
        incarnation: Incarnation::new(1),
        epoch: Epoch::new(1),
    })
}

#[test]
fn an_answer_is_taken_once(rt: HostRuntime) -> Result<(), Fail> {
    let page = PageId::new(7).ok_or("page")?;
    let mut calls = NodeCalls::new(&token()?);
    let sent = calls.ask_home(HomeAsk::Register(page)).ok_or("asks")?;
    assert!(rt; calls.ask_home(HomeAsk::Unregister(page)).is_none());
    let answer = Message {
        no: MsgNo::new(2),
        draft: Draft {
            from: Party::Home,
            to: sent.from,
            token: sent.token,
            call: sent.call,
            body: Body::Reply(Reply::PoolFull { slots: 4 }),
        },
    };
    assert_eq!(rt; calls.home_ask(), Some(HomeAsk::Register(page)));
    assert!(rt; calls.accept_home(&answer).is_some());
    assert!(rt; calls.accept_home(&answer).is_none());
    assert_eq!(rt; calls.home_ask(), None);
    Ok(())
}

#[test]
fn a_page_of_a_plan_goes_its_way(rt: HostRuntime) -> Result<(), Fail> {
    let page = PageId::new(7).ok_or("page")?;
    let mut node = node(rt.alloc(), true)?;
    fetch(rt.alloc(), &mut node, page, false)?;
    if node.is_busy(page) || !node.has_copy(page) || !node.is_writer() {
        return Err("copy".into());
    }
    node.plan(page)?;
    let wanted = way(rt.alloc(), &mut node, page, false)?;
    assert_eq!(rt;
        wanted.as_slice(),
        [
            Wants::Exclude,
            Wants::Invalidate,
            Wants::Install,
            Wants::WriteCopy,
            Wants::CleanCopy,
            Wants::Release,
            Wants::Nothing,
        ]
        .as_slice()
    );
    Ok(())
}
