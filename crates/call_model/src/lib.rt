//! Calls over a network that loses, repeats and delays messages: each is handled at most once.
#![tactic(auto)]

ghost use Rattle.call_model.specs.Laws.{AnswersAreKept, EventsAreCallSteps, HandledOnce, HandledWereAsked, LabelsAreOfOneCall, RefusedAreOlder};
ghost use Rattle.call_model.specs.Examples.{OrphanedIsHandledOnce, RefusedIsNotHandled, RepeatedIsHandledOnce};

/// At most once, for calls and replies of any type, over every list of events. It does nothing when it is run.
pub fn call_laws<Q, R>()
    ensures once { HandledOnce Q R }
    ensures kept { AnswersAreKept Q R }
    ensures asked { HandledWereAsked Q R }
    ensures one_call { LabelsAreOfOneCall Q R }
    ensures older { RefusedAreOlder Q R }
    ensures steps { EventsAreCallSteps Q R }
{}

/// Three lists of events that the laws speak of. It does nothing when it is run.
pub fn call_examples()
    ensures repeated { RepeatedIsHandledOnce }
    ensures orphaned { OrphanedIsHandledOnce }
    ensures refused { RefusedIsNotHandled }
{}
