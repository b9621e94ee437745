ghost use Rattle.std.specs.Prelude.{◌≡◌};

use crate::{Admit, Ask, Body, Caller, Draft, Network, Party, Reply, Server};
use rm_base::{CallNo, Duplicate, Epoch, Incarnation, MsgNo, NodeId, PageId, Token};
use std::test::Fail;

fn token(incarnation: u64, epoch: u64) -> Token
    ensures { result ≡ record { node = 3; incarnation = incarnation; epoch = epoch } }
{
    Token {
        node: NodeId::new(3).unwrap(),
        incarnation: Incarnation::new(incarnation),
        epoch: Epoch::new(epoch),
    }
}

fn call(token: Token, call: CallNo) -> Draft {
    Draft {
        from: Party::Node(token.node),
        to: Party::Home,
        token,
        call,
        body: Body::Ask(Ask::Register(PageId::new(7).unwrap())),
    }
}

fn answer(token: Token, call: CallNo, reply: Reply) -> Draft {
    Draft {
        from: Party::Home,
        to: Party::Node(token.node),
        token,
        call,
        body: Body::Reply(reply),
    }
}

#[test]
fn messages_have_numbers_and_are_noted(rt: HostRuntime) -> Result<(), Fail> {
    let mut network = Network::new(rt.alloc());
    assert!(rt; network.deliver(MsgNo::new(1)).is_none());
    assert_eq!(rt; network.next_new(MsgNo::new(0)), None);
    assert_eq!(rt;
        network.send(call(token(1, 1), CallNo::new(1)))?,
        MsgNo::new(1)
    );
    assert_eq!(rt;
        network.send(answer(token(1, 1), CallNo::new(1), Reply::Done))?,
        MsgNo::new(2)
    );
    assert_eq!(rt;
        network.send(call(token(1, 1), CallNo::new(2)))?,
        MsgNo::new(3)
    );
    assert_eq!(rt; network.count(), 3);
    assert!(rt; network.deliver(MsgNo::new(0)).is_none());
    assert!(rt; network.deliver(MsgNo::new(4)).is_none());
    assert_eq!(rt;
        network.deliver(MsgNo::new(3)).ok_or("third")?.draft.call,
        CallNo::new(2)
    );
    network.mark(MsgNo::new(1));
    network.mark(MsgNo::new(9));
    assert_eq!(rt; network.next_new(MsgNo::new(1)), Some(MsgNo::new(2)));
    network.mark(MsgNo::new(3));
    assert_eq!(rt; network.next_new(MsgNo::new(3)), None);
    assert_eq!(rt; network.next_new(MsgNo::new(0)), Some(MsgNo::new(2)));
    assert!(rt; network.deliver(MsgNo::new(1)).is_some());
    Ok(())
}

#[test]
fn a_caller_accepts_the_answer_that_it_waits_for(rt: HostRuntime) -> Result<(), Fail> {
    let mut network = Network::new(rt.alloc());
    let mut caller = Caller::new(token(1, 1));
    let first = caller.ask().ok_or("asks")?;
    assert_eq!(rt; first, CallNo::new(1));
    assert_eq!(rt; caller.ask(), None);
    let asked = network.send(call(caller.token(), first))?;
    let done = network.send(answer(caller.token(), first, Reply::Done))?;
    let late = network.send(answer(token(1, 2), first, Reply::Done))?;
    assert!(rt;
        caller
            .accept(network.deliver(asked).ok_or("asked")?)
            .is_none()
    );
    assert!(rt;
        caller
            .accept(network.deliver(late).ok_or("late")?)
            .is_none()
    );
    assert_eq!(rt; caller.waiting(), Some(first));
    assert!(rt;
        matches!(
            caller.accept(network.deliver(done).ok_or("done")?),
            Some(Reply::Done)
        )
    );
    assert!(rt;
        caller
            .accept(network.deliver(done).ok_or("done")?)
            .is_none()
    );
    assert_eq!(rt; caller.waiting(), None);
    Ok(())
}

#[test]
fn a_renewed_caller_waits_for_nothing(rt: HostRuntime) -> Result<(), Fail> {
    let mut caller = Caller::new(token(1, 1));
    caller.ask().ok_or("asks")?;
    caller.renew(token(2, 4));
    assert_eq!(rt; caller.waiting(), None);
    assert_eq!(rt; caller.ask(), Some(CallNo::new(2)));
    assert_eq!(rt; caller.token(), token(2, 4));
    Ok(())
}

#[test]
fn a_server_handles_a_call_once(rt: HostRuntime) -> Result<(), Fail> {
    let mut server = Server::new(Epoch::new(1));
    let three = token(1, 1);
    let fifth = CallNo::new(5);
    assert!(rt; server.last(three.node).is_none());
    match server.admit(three, fifth) {
        Admit::New => server.keep(three, fifth, Reply::Started { due: 2 }),
        _ => return Err("fifth".into()),
    }
    assert_eq!(rt; server.admit(three, fifth), Admit::Again);
    assert_eq!(rt; server.admit(three, CallNo::new(4)), Admit::Old);
    assert_eq!(rt; server.admit(token(0, 1), CallNo::new(9)), Admit::Old);
    assert_eq!(rt; server.admit(token(2, 1), CallNo::new(1)), Admit::New);
    let kept = server.last(three.node).ok_or("kept")?.copy(rt.alloc())?;
    assert!(rt; matches!(kept, Reply::Started { due: 2 }));
    Ok(())
}

#[test]
fn a_fence_and_a_renewal_end_calls(rt: HostRuntime) -> Result<(), Fail> {
    let mut server = Server::new(Epoch::new(1));
    let node = token(1, 1).node;
    server.renew(node, Incarnation::new(2));
    server.fence(Epoch::new(2));
    assert!(rt; server.last(node).is_none());
    assert_eq!(rt; server.epoch(), Epoch::new(2));
    assert_eq!(rt; server.admit(token(1, 2), CallNo::new(1)), Admit::Old);
    assert_eq!(rt;
        server.admit(token(2, 1), CallNo::new(1)),
        Admit::Fenced(Epoch::new(2))
    );
    assert_eq!(rt; server.admit(token(2, 2), CallNo::new(1)), Admit::New);
    Ok(())
}
