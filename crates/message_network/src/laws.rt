ghost use Rattle.message_network.specs.Runs.{AreRunsOfCalls, AreCallSteps, HandledOnce, HandledWereAsked, RepliesAreRight};
ghost use Rattle.message_network.specs.Samples.{RepeatedIsHandledOnce, LateIsRefused};

/// At most once, over every list of sends, deliveries, fences and renewals. It does nothing when it is
/// run.
pub fn service_laws()
    ensures runs { AreRunsOfCalls }
    ensures steps { AreCallSteps }
    ensures once { HandledOnce }
    ensures asked { HandledWereAsked }
    ensures replies { RepliesAreRight }
{}

/// Two lists of events that the laws speak of. It does nothing when it is run.
pub fn service_samples()
    ensures repeated { RepeatedIsHandledOnce }
    ensures late { LateIsRefused }
{}
