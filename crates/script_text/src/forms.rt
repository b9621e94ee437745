//! The forms of the lines that are words: events and rounds.
ghost use Rattle.std.specs.Prelude.{◌≡◌};
ghost use Rattle.script_text.specs.Forms as spec;

use crate::names::SessionName;
use crate::numbers::{node_of, number_of};
use crate::verbs::{
    LoneVerb, NodeVerb, NumberVerb, SlabVerb, delivery_verb, kind_of, lone_verb, node_verb,
    number_verb, slab_verb, turn_verb,
};
use crate::words::Part;
use cluster_model::ActKind;

/// What a line says, with its numbers and names as they are written.
#[derive(Debug, Drop)]
pub enum Form<'a> {
    Lone(LoneVerb),
    Numbered(NumberVerb, u32),
    OfNode(NodeVerb, u32),
    OfSlab(SlabVerb, u32),
    Evict(u32, u32),
    Timeout(SessionName<'a>),
    Until(u32, ActKind, u32),
    Session(SessionName<'a>, u32),
    Submit(SessionName<'a>, Part<'a>),
}

/// What the words of a line say. None where they have none of the forms.
pub fn worded<'a>(words: &[Part<'a>]) -> Option<Form<'a>>
    ensures { result ≡ spec.worded words.now }
{
    match words {
        [first] => one(first),
        [first, second] => two(first, second),
        [first, second, third] => three(first, second, third),
        [first, second, third, fourth] => four(first, second, third, fourth),
        _ => None,
    }
}

#[tactic(auto, unfolding(crate::specs::Forms::one))]
fn one<'a>(first: &Part<'a>) -> Option<Form<'a>>
    ensures { result ≡ spec.one first.now }
{
    let verb = lone_verb(first)?;
    Some(Form::Lone(verb))
}

#[tactic(auto, unfolding(crate::specs::Forms::two))]
fn two<'a>(first: &Part<'a>, second: &Part<'a>) -> Option<Form<'a>>
    ensures { result ≡ spec.two first.now second.now }
{
    if first.is(b"deliver") {
        deliver(second)
    } else if first.is(b"crash") {
        crash(second)
    } else if first.is(b"timeout") {
        timeout(second)
    } else {
        match node_verb(first) {
            Some(verb) => of_node(verb, second),
            None => numbered(first, second),
        }
    }
}

#[tactic(auto, unfolding(crate::specs::Forms::deliver))]
fn deliver<'a>(second: &Part<'a>) -> Option<Form<'a>>
    ensures { result ≡ spec.deliver second.now }
{
    match delivery_verb(second) {
        Some(verb) => Some(Form::Lone(verb)),
        None => {
            let number = number_of(second.bytes())?;
            Some(Form::Numbered(NumberVerb::Deliver, number))
        }
    }
}

#[tactic(auto, unfolding(crate::specs::Forms::crash))]
fn crash<'a>(second: &Part<'a>) -> Option<Form<'a>>
    ensures { result ≡ spec.crash second.now }
{
    if second.is(b"home") {
        Some(Form::Lone(LoneVerb::CrashHome))
    } else {
        of_node(NodeVerb::Crash, second)
    }
}

#[tactic(auto, unfolding(crate::specs::Forms::timeout))]
fn timeout<'a>(second: &Part<'a>) -> Option<Form<'a>>
    ensures { result ≡ spec.timeout second.now }
{
    let name = SessionName::new(second.bytes())?;
    Some(Form::Timeout(name))
}

#[tactic(auto, unfolding(crate::specs::Forms::of_node))]
fn of_node<'a>(verb: NodeVerb, second: &Part<'a>) -> Option<Form<'a>>
    ensures { result ≡ spec.of_node verb second.now }
{
    let node = node_of(second.bytes())?;
    Some(Form::OfNode(verb, node))
}

#[tactic(auto, unfolding(crate::specs::Forms::numbered))]
fn numbered<'a>(first: &Part<'a>, second: &Part<'a>) -> Option<Form<'a>>
    ensures { result ≡ spec.numbered first.now second.now }
{
    let verb = number_verb(first)?;
    let number = number_of(second.bytes())?;
    Some(Form::Numbered(verb, number))
}

#[tactic(auto, unfolding(crate::specs::Forms::three))]
fn three<'a>(first: &Part<'a>, second: &Part<'a>, third: &Part<'a>) -> Option<Form<'a>>
    ensures { result ≡ spec.three first.now second.now third.now }
{
    if first.is(b"turn") {
        turn(second, third)
    } else if first.is(b"evict") {
        evict(second, third)
    } else if second.is(b"slab") {
        of_slab(first, third)
    } else {
        None
    }
}

#[tactic(auto, unfolding(crate::specs::Forms::turn))]
fn turn<'a>(second: &Part<'a>, third: &Part<'a>) -> Option<Form<'a>>
    ensures { result ≡ spec.turn second.now third.now }
{
    let verb = turn_verb(third)?;
    of_node(verb, second)
}

#[tactic(auto, unfolding(crate::specs::Forms::evict))]
fn evict<'a>(second: &Part<'a>, third: &Part<'a>) -> Option<Form<'a>>
    ensures { result ≡ spec.evict second.now third.now }
{
    let node = node_of(second.bytes())?;
    let page = number_of(third.bytes())?;
    Some(Form::Evict(node, page))
}

#[tactic(auto, unfolding(crate::specs::Forms::of_slab))]
fn of_slab<'a>(first: &Part<'a>, third: &Part<'a>) -> Option<Form<'a>>
    ensures { result ≡ spec.of_slab first.now third.now }
{
    let verb = slab_verb(first)?;
    let slab = number_of(third.bytes())?;
    Some(Form::OfSlab(verb, slab))
}

#[tactic(auto, unfolding(crate::specs::Forms::four))]
fn four<'a>(
    first: &Part<'a>,
    second: &Part<'a>,
    third: &Part<'a>,
    fourth: &Part<'a>,
) -> Option<Form<'a>>
    ensures { result ≡ spec.four first.now second.now third.now fourth.now }
{
    if first.is(b"until") {
        until(second, third, fourth)
    } else if first.is(b"session") && third.is(b"on") {
        session(second, fourth)
    } else {
        None
    }
}

#[tactic(auto, unfolding(crate::specs::Forms::until))]
fn until<'a>(second: &Part<'a>, third: &Part<'a>, fourth: &Part<'a>) -> Option<Form<'a>>
    ensures { result ≡ spec.until second.now third.now fourth.now }
{
    let node = node_of(second.bytes())?;
    let kind = kind_of(third)?;
    let rounds = number_of(fourth.bytes())?;
    Some(Form::Until(node, kind, rounds))
}

#[tactic(auto, unfolding(crate::specs::Forms::session))]
fn session<'a>(second: &Part<'a>, fourth: &Part<'a>) -> Option<Form<'a>>
    ensures { result ≡ spec.session second.now fourth.now }
{
    let name = SessionName::new(second.bytes())?;
    let node = node_of(fourth.bytes())?;
    Some(Form::Session(name, node))
}
