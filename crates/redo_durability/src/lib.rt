//! The log of the open RW and the log store: what was acknowledged is in the store, over crashes and takeovers.
#![tactic(auto)]

ghost use Rattle.redo_durability.specs.Examples.{TakenOverIsDurable, TooLateIsLost};
ghost use Rattle.redo_durability.specs.Laws.{AcknowledgedLasts, NoneIsRefused, OlderChangeNothing, OpenLogIsWhole, StoreGrows, StoreIsAFront};

/// Durability, for groups of any type and size, over every list of events. It does nothing when it is run.
pub fn durability_laws<G>()
    ensures front { StoreIsAFront G }
    ensures whole { OpenLogIsWhole G }
    ensures kept { NoneIsRefused G }
    ensures older { OlderChangeNothing G }
    ensures grows { StoreGrows G }
    ensures lasts { AcknowledgedLasts G }
{}

/// Two lists of events that the laws speak of. It does nothing when it is run.
pub fn durability_examples()
    ensures taken_over { TakenOverIsDurable }
    ensures too_late { TooLateIsLost }
{}
