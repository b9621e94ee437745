//! What a line asks for, or what is wrong with it.
ghost use Rattle.std.specs.Prelude.{◌≡◌, ◌==◌, ◌≤◌, ◌<◌, IfOk, IfSome, length};
ghost use Rattle.std.specs.List.{position};
ghost use Rattle.std.specs.Str.{bytes_eq};
ghost use Rattle.script_text.specs.Orders as spec;

use crate::forms::Form;
use crate::names::SessionName;
use crate::verbs::{LoneVerb, NodeVerb, NumberVerb, SlabVerb};
use crate::whys::Why;
use crate::words::Part;
use cluster_model::{ActKind, Event, Order, Shape};
use rm_base::{Bytes, MsgNo, Name, Names, NodeId, PageId, SessionId, SlabId, WantOfMemory};
use std::alloc::Global;

const MAX_SESSIONS: usize = 64;

/// The most rounds of one line.
const MAX_ROUNDS: u32 = 100_000;

/// How many page chunks there are.
const CHUNKS: u32 = 128;

/// What the line asks for of a cluster of this shape, in which the sessions of these names were declared.
pub fn order_of(
    alloc: Global,
    shape: &Shape,
    names: &Names,
    form: &Form<'_>,
) -> Result<Result<Order, Why>, WantOfMemory>
    requires nodes { shape.now.nodes ≤ 16 }
    requires slabs { shape.now.slabs ≤ 16 }
    requires sessions { length names.now ≤ 64 }
    ensures { IfOk result (λ r. r ≡ spec.order_of shape.now names.now form.now) }
{
    match form {
        Form::Lone(verb) => Ok(lone(*verb)),
        Form::Numbered(verb, number) => Ok(numbered(*verb, *number)),
        Form::OfNode(verb, node) => Ok(of_node(shape, *verb, *node)),
        Form::OfSlab(verb, slab) => Ok(of_slab(shape, *verb, *slab)),
        Form::Evict(node, page) => Ok(evict(shape, *node, *page)),
        Form::Timeout(name) => Ok(timeout(names, name)),
        Form::Until(node, kind, rounds) => Ok(until(shape, *node, *kind, *rounds)),
        Form::Session(name, node) => session(alloc, shape, names, name, *node),
        Form::Submit(name, text) => submit(alloc, names, name, text),
    }
}

/// The node of this number, from 1.
#[tactic(auto, unfolding(crate::specs::Orders::node_in))]
fn node_in(shape: &Shape, number: u32) -> Result<NodeId, Why>
    requires { shape.now.nodes ≤ 16 }
    ensures { result ≡ spec.node_in shape.now number }
{
    if number < 1 || number > u32::from(shape.nodes) {
        return Err(Why::Node);
    }
    Ok(NodeId::new((number - 1) as u8).unwrap())
}

/// The slab of this number, from 1.
#[tactic(auto, unfolding(crate::specs::Orders::slab_in))]
fn slab_in(shape: &Shape, number: u32) -> Result<SlabId, Why>
    requires { shape.now.slabs ≤ 16 }
    ensures { result ≡ spec.slab_in shape.now number }
{
    if number < 1 || number > u32::from(shape.slabs) {
        return Err(Why::Slab);
    }
    Ok(SlabId::new((number - 1) as u8).unwrap())
}

#[tactic(auto, unfolding(crate::specs::Orders::message_in))]
fn message_in(number: u32) -> Result<MsgNo, Why>
    ensures { result ≡ spec.message_in number }
{
    if 1 <= number {
        Ok(MsgNo::new(u64::from(number)))
    } else {
        Err(Why::Number)
    }
}

#[tactic(auto, unfolding(crate::specs::Orders::chunk_in))]
fn chunk_in(number: u32) -> Result<u8, Why>
    ensures { result ≡ spec.chunk_in number }
{
    if number < CHUNKS {
        Ok(number as u8)
    } else {
        Err(Why::Number)
    }
}

#[tactic(auto, unfolding(crate::specs::Orders::page_in))]
fn page_in(number: u32) -> Result<PageId, Why>
    ensures { result ≡ spec.page_in number }
{
    match PageId::new(number) {
        Some(page) => Ok(page),
        None => Err(Why::Number),
    }
}

#[tactic(auto, unfolding(crate::specs::Orders::rounds_in))]
fn rounds_in(number: u32) -> Result<u32, Why>
    ensures { result ≡ spec.rounds_in number }
{
    if number < 1 || number > MAX_ROUNDS {
        return Err(Why::Number);
    }
    Ok(number)
}

/// The place of a session among those that were declared.
fn place_of(names: &[Name], name: &SessionName<'_>) -> Option<usize>
    ensures value { result ≡ position (λ n. bytes_eq n name.now) names.now }
    ensures bound { IfSome result (λ n. n < length names.now) }
{
    names.iter().position(|n| n.as_slice() == name.bytes())
}

fn session_id(place: usize) -> SessionId
    requires { place < 64 }
    ensures { result ≡ place }
{
    SessionId::new(place as u8).unwrap()
}

#[tactic(auto, unfolding(crate::specs::Orders::session_in))]
fn session_in(names: &Names, name: &SessionName<'_>) -> Result<SessionId, Why>
    requires { length names.now ≤ 64 }
    ensures { result ≡ spec.session_in names.now name.now }
{
    match place_of(names.as_slice(), name) {
        Some(place) => Ok(session_id(place)),
        None => Err(Why::Session),
    }
}

/// The number of a session that is not there yet.
#[tactic(auto, unfolding(crate::specs::Orders::new_in))]
fn new_in(names: &Names, name: &SessionName<'_>) -> Result<SessionId, Why>
    requires { length names.now ≤ 64 }
    ensures { result ≡ spec.new_in names.now name.now }
{
    match place_of(names.as_slice(), name) {
        Some(_) => Err(Why::Twice),
        None => {
            if names.len() < MAX_SESSIONS {
                Ok(session_id(names.len()))
            } else {
                Err(Why::Twice)
            }
        }
    }
}

fn lone(verb: LoneVerb) -> Result<Order, Why>
    ensures { result ≡ spec.lone verb }
{
    let event = match verb {
        LoneVerb::DeliverLast => Event::DeliverLast,
        LoneVerb::DeliverAll => Event::DeliverAll,
        LoneVerb::Home => Event::Home,
        LoneVerb::CrashHome => Event::CrashHome,
        LoneVerb::Renew => Event::Renew,
    };
    Ok(Order::One(event))
}

#[tactic(auto, unfolding(crate::specs::Orders::numbered))]
fn numbered(verb: NumberVerb, number: u32) -> Result<Order, Why>
    ensures { result ≡ spec.numbered verb number }
{
    match verb {
        NumberVerb::Deliver => {
            let message = message_in(number)?;
            Ok(Order::One(Event::Deliver(message)))
        }
        NumberVerb::Ship => {
            let chunk = chunk_in(number)?;
            Ok(Order::One(Event::Ship(chunk)))
        }
        NumberVerb::Fold => {
            let page = page_in(number)?;
            Ok(Order::One(Event::Fold(page)))
        }
        NumberVerb::Drain => {
            let rounds = rounds_in(number)?;
            Ok(Order::Drain(rounds))
        }
    }
}

fn node_event(verb: NodeVerb, node: NodeId) -> Event
    ensures { result ≡ spec.node_event verb node }
{
    match verb {
        NodeVerb::Turn => Event::Turn(node),
        NodeVerb::TurnLost => Event::TurnLost(node),
        NodeVerb::TurnUnseen => Event::TurnUnseen(node),
        NodeVerb::Crash => Event::CrashNode(node),
        NodeVerb::Kick => Event::Kick(node),
        NodeVerb::Restart => Event::Restart(node),
        NodeVerb::Takeover => Event::Takeover(node),
    }
}

#[tactic(auto, unfolding(crate::specs::Orders::of_node))]
fn of_node(shape: &Shape, verb: NodeVerb, node: u32) -> Result<Order, Why>
    requires { shape.now.nodes ≤ 16 }
    ensures { result ≡ spec.of_node shape.now verb node }
{
    let node = node_in(shape, node)?;
    Ok(Order::One(node_event(verb, node)))
}

fn slab_event(verb: SlabVerb, slab: SlabId) -> Event
    ensures { result ≡ spec.slab_event verb slab }
{
    match verb {
        SlabVerb::Crash => Event::CrashSlab(slab),
        SlabVerb::Drop => Event::DropSlab(slab),
        SlabVerb::Restart => Event::RestartSlab(slab),
    }
}

#[tactic(auto, unfolding(crate::specs::Orders::of_slab))]
fn of_slab(shape: &Shape, verb: SlabVerb, slab: u32) -> Result<Order, Why>
    requires { shape.now.slabs ≤ 16 }
    ensures { result ≡ spec.of_slab shape.now verb slab }
{
    let slab = slab_in(shape, slab)?;
    Ok(Order::One(slab_event(verb, slab)))
}

#[tactic(auto, unfolding(crate::specs::Orders::evict))]
fn evict(shape: &Shape, node: u32, page: u32) -> Result<Order, Why>
    requires { shape.now.nodes ≤ 16 }
    ensures { result ≡ spec.evict shape.now node page }
{
    let page = page_in(page)?;
    let node = node_in(shape, node)?;
    Ok(Order::One(Event::Evict(node, page)))
}

#[tactic(auto, unfolding(crate::specs::Orders::timeout))]
fn timeout(names: &Names, name: &SessionName<'_>) -> Result<Order, Why>
    requires { length names.now ≤ 64 }
    ensures { result ≡ spec.timeout names.now name.now }
{
    let session = session_in(names, name)?;
    Ok(Order::One(Event::Timeout(session)))
}

#[tactic(auto, unfolding(crate::specs::Orders::until))]
fn until(shape: &Shape, node: u32, kind: ActKind, rounds: u32) -> Result<Order, Why>
    requires { shape.now.nodes ≤ 16 }
    ensures { result ≡ spec.until shape.now node kind rounds }
{
    let rounds = rounds_in(rounds)?;
    let node = node_in(shape, node)?;
    Ok(Order::Until { node, kind, rounds })
}

#[tactic(auto, unfolding(crate::specs::Orders::session))]
fn session(
    alloc: Global,
    shape: &Shape,
    names: &Names,
    name: &SessionName<'_>,
    node: u32,
) -> Result<Result<Order, Why>, WantOfMemory>
    requires nodes { shape.now.nodes ≤ 16 }
    requires sessions { length names.now ≤ 64 }
    ensures { IfOk result (λ r. r ≡ spec.session shape.now names.now name.now node) }
{
    let node = match node_in(shape, node) {
        Ok(node) => node,
        Err(why) => return Ok(Err(why)),
    };
    match new_in(names, name) {
        Ok(session) => {
            let name = name.to_name(alloc)?;
            Ok(Ok(Order::One(Event::Session {
                session,
                name,
                node,
            })))
        }
        Err(why) => Ok(Err(why)),
    }
}

#[tactic(auto, unfolding(crate::specs::Orders::submit))]
fn submit(
    alloc: Global,
    names: &Names,
    name: &SessionName<'_>,
    text: &Part<'_>,
) -> Result<Result<Order, Why>, WantOfMemory>
    requires { length names.now ≤ 64 }
    ensures { IfOk result (λ r. r ≡ spec.submit names.now name.now text.now) }
{
    match session_in(names, name) {
        Ok(session) => {
            let mut copy = Bytes::new(alloc);
            copy.append(text.bytes())?;
            Ok(Ok(Order::One(Event::Submit {
                session,
                text: copy,
            })))
        }
        Err(why) => Ok(Err(why)),
    }
}
