//! Laws of what callers know of a pool.
ghost use Rattle.page_pool.specs.Laws.{AcknowledgedGrows, AcknowledgedIsAFront, EndIsKnown, HandedWasCurrent, LogGrows, LogIsCounted, OffsetIsKnown, OthersSettleNone, StoreIsAFront};

/// The log, what is in storage and what was handed out, over every list of calls. It does nothing when it
/// is run.
pub fn log_laws()
    ensures front { StoreIsAFront }
    ensures known { AcknowledgedIsAFront }
    ensures counted { LogIsCounted }
    ensures grows { LogGrows }
    ensures lasts { AcknowledgedGrows }
    ensures current { HandedWasCurrent }
{}

/// What joins the log, and what a node learns to be in storage. It does nothing when it is run.
pub fn settle_laws()
    ensures end { EndIsKnown }
    ensures offset { OffsetIsKnown }
    ensures others { OthersSettleNone }
{}
