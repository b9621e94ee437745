//! Where a fetch stands, by the act that it asks for next.
ghost use Rattle.std.specs.Prelude.{◌≡◌};
ghost use Rattle.coherent_pool.specs.Standing.{is_register, is_read, is_done, asks_register, asks_read, asks_nothing};

use fetch_steps::{Action, FetchStep};

fn asks_register(act: &Action) -> bool
    ensures { result ≡ asks_register act.now }
{
    matches!(act, Action::Register(_))
}

fn asks_read(act: &Action) -> bool
    ensures { result ≡ asks_read act.now }
{
    matches!(act, Action::Read(_, _))
}

fn asks_nothing(act: &Action) -> bool
    ensures { result ≡ asks_nothing act.now }
{
    matches!(act, Action::Finished)
}

/// The page is to be registered.
#[tactic(auto, using(crate::proofs::Places::registers_by))]
pub(crate) fn registers(step: &FetchStep) -> bool
    ensures { result ≡ is_register step.now.place }
{
    asks_register(&step.next())
}

/// The slot is to be read.
#[tactic(auto, using(crate::proofs::Places::reads_by))]
pub(crate) fn reads(step: &FetchStep) -> bool
    ensures { result ≡ is_read step.now.place }
{
    asks_read(&step.next())
}

/// Nothing is left to do, and no latch is held.
#[tactic(auto, using(crate::proofs::Places::done_by))]
pub(crate) fn is_done(step: &FetchStep) -> bool
    ensures { result ≡ is_done step.now.place }
{
    let finished = asks_nothing(&step.next());
    finished && !step.may_hold()
}
