//! The laws of the pool as one machine.
#![tactic(auto)]

ghost use Rattle.pool_laws.specs.Examples.{LateRegisterIsHandledOnce, RenewedHomeHasARw};
ghost use Rattle.pool_laws.specs.Laws.{AppendsAreKept, EventsAreSteps, HandledOnce, LogIsDurable, PagesAreCoherent, PagesAreReached};

/// The pool over every list of events, crashes and late messages among them, for groups of any type and
/// size. It does nothing when it is run.
pub fn pool_laws<G>()
    ensures steps { EventsAreSteps G }
    ensures pages { PagesAreReached G }
    ensures coherent { PagesAreCoherent G }
    ensures once { HandledOnce G }
    ensures durable { LogIsDurable G }
    ensures kept { AppendsAreKept G }
{}

/// Two lists of events that the laws speak of. It does nothing when it is run.
#[tactic(auto, using(crate::proofs::Examples::late_register_is_handled_once, crate::proofs::Renewal::renewed_home_has_a_rw))]
pub fn pool_examples()
    ensures late_register { LateRegisterIsHandledOnce }
    ensures renewed_home { RenewedHomeHasARw }
{}
