//! What can happen, by the words for it.
ghost use Rattle.std.specs.Prelude.{◌≡◌};
ghost use Rattle.script_text.specs.Verbs as spec;

use crate::words::Part;
use cluster_model::ActKind;

/// What happens with nothing more to say of it.
#[derive(Clone, Copy, Debug, PartialEq, Eq)]
pub enum LoneVerb {
    DeliverLast,
    DeliverAll,
    Home,
    CrashHome,
    Renew,
}

/// What happens with a number.
#[derive(Clone, Copy, Debug, PartialEq, Eq)]
pub enum NumberVerb {
    Deliver,
    Ship,
    Fold,
    Drain,
}

/// What happens to a node.
#[derive(Clone, Copy, Debug, PartialEq, Eq)]
pub enum NodeVerb {
    Turn,
    TurnLost,
    TurnUnseen,
    Crash,
    Kick,
    Restart,
    Takeover,
}

/// What happens to a slab.
#[derive(Clone, Copy, Debug, PartialEq, Eq)]
pub enum SlabVerb {
    Crash,
    Drop,
    Restart,
}

#[tactic(auto, unfolding(crate::specs::Verbs::lone_verb))]
pub fn lone_verb(word: &Part<'_>) -> Option<LoneVerb>
    ensures { result ≡ spec.lone_verb word.now }
{
    if word.is(b"home") {
        Some(LoneVerb::Home)
    } else if word.is(b"renew") {
        Some(LoneVerb::Renew)
    } else {
        None
    }
}

#[tactic(auto, unfolding(crate::specs::Verbs::delivery_verb))]
pub fn delivery_verb(word: &Part<'_>) -> Option<LoneVerb>
    ensures { result ≡ spec.delivery_verb word.now }
{
    if word.is(b"last") {
        Some(LoneVerb::DeliverLast)
    } else if word.is(b"all") {
        Some(LoneVerb::DeliverAll)
    } else {
        None
    }
}

#[tactic(auto, unfolding(crate::specs::Verbs::number_verb))]
pub fn number_verb(word: &Part<'_>) -> Option<NumberVerb>
    ensures { result ≡ spec.number_verb word.now }
{
    if word.is(b"ship") {
        Some(NumberVerb::Ship)
    } else if word.is(b"fold") {
        Some(NumberVerb::Fold)
    } else if word.is(b"drain") {
        Some(NumberVerb::Drain)
    } else {
        None
    }
}

#[tactic(auto, unfolding(crate::specs::Verbs::node_verb))]
pub fn node_verb(word: &Part<'_>) -> Option<NodeVerb>
    ensures { result ≡ spec.node_verb word.now }
{
    if word.is(b"turn") {
        Some(NodeVerb::Turn)
    } else if word.is(b"kick") {
        Some(NodeVerb::Kick)
    } else if word.is(b"restart") {
        Some(NodeVerb::Restart)
    } else if word.is(b"takeover") {
        Some(NodeVerb::Takeover)
    } else {
        None
    }
}

/// How a turn goes that does not go well.
#[tactic(auto, unfolding(crate::specs::Verbs::turn_verb))]
pub fn turn_verb(word: &Part<'_>) -> Option<NodeVerb>
    ensures { result ≡ spec.turn_verb word.now }
{
    if word.is(b"lost") {
        Some(NodeVerb::TurnLost)
    } else if word.is(b"unseen") {
        Some(NodeVerb::TurnUnseen)
    } else {
        None
    }
}

#[tactic(auto, unfolding(crate::specs::Verbs::slab_verb))]
pub fn slab_verb(word: &Part<'_>) -> Option<SlabVerb>
    ensures { result ≡ spec.slab_verb word.now }
{
    if word.is(b"crash") {
        Some(SlabVerb::Crash)
    } else if word.is(b"drop") {
        Some(SlabVerb::Drop)
    } else if word.is(b"restart") {
        Some(SlabVerb::Restart)
    } else {
        None
    }
}

/// A kind of act by its word.
#[tactic(auto, unfolding(crate::specs::Verbs::kind_of))]
pub fn kind_of(word: &Part<'_>) -> Option<ActKind>
    ensures { result ≡ spec.kind_of word.now }
{
    if word.is(b"stamp") {
        Some(ActKind::Stamp)
    } else if word.is(b"register") {
        Some(ActKind::Register)
    } else if word.is(b"unregister") {
        Some(ActKind::Unregister)
    } else if word.is(b"invalidate") {
        Some(ActKind::Invalidate)
    } else if word.is(b"latch") {
        Some(ActKind::Latch)
    } else if word.is(b"release") {
        Some(ActKind::Release)
    } else if word.is(b"look") {
        Some(ActKind::Look)
    } else {
        later_kind_of(word)
    }
}

#[tactic(auto, unfolding(crate::specs::Verbs::later_kind_of))]
fn later_kind_of(word: &Part<'_>) -> Option<ActKind>
    ensures { result ≡ spec.later_kind_of word.now }
{
    if word.is(b"clean") {
        Some(ActKind::Clean)
    } else if word.is(b"read") {
        Some(ActKind::Read)
    } else if word.is(b"write") {
        Some(ActKind::Write)
    } else if word.is(b"get") {
        Some(ActKind::Get)
    } else if word.is(b"append") {
        Some(ActKind::Append)
    } else if word.is(b"install") {
        Some(ActKind::Install)
    } else if word.is(b"split") {
        Some(ActKind::Split)
    } else if word.is(b"reply") {
        Some(ActKind::Reply)
    } else {
        None
    }
}
