ghost use Rattle.held_versions.specs.Laws.{BeginIsBegun, CommitIsStamped, ExampleHolds, FreeIsFreed, OpeningIsBlank, OpeningIsMeaningful};
ghost use Rattle.held_versions.specs.Meaning.{MeaningfulHolds};
ghost use Rattle.held_versions.specs.Run.{RunHolds};
ghost use Rattle.held_versions.specs.Single.{OneStore};

/// The pages that every log begins with hold the store with nothing in it, and have a meaning. It
/// does nothing when it is run.
pub fn opening_laws()
    ensures blank { OpeningIsBlank }
    ensures meaning { OpeningIsMeaningful }
{}

/// Pages with a meaning hold the store that is read off them; and pages hold one store alone. It
/// does nothing when it is run.
pub fn reading_laws()
    ensures reads { MeaningfulHolds }
    ensures one { OneStore }
{}

/// What the groups that begin and end a transaction make of the store that pages hold. It does
/// nothing when it is run.
pub fn holds_laws()
    ensures begin { BeginIsBegun }
    ensures commit { CommitIsStamped }
    ensures free { FreeIsFreed }
{}

/// Two examples: a table with one row of two versions, whose pages hold its store; and a run of
/// groups from the opening on, whose pages hold a store after each. It does nothing when it is run.
pub fn example_laws()
    ensures holds { ExampleHolds }
    ensures run { RunHolds }
{}
