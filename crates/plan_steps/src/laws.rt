ghost use Rattle.plan_steps.specs.Applying.{ChangeApplies, UndoApplies};
ghost use Rattle.plan_steps.specs.Counting.{CountsAlone};
ghost use Rattle.plan_steps.specs.Creates.{CreateIsCreated};
ghost use Rattle.plan_steps.specs.Entries.{EntriesStayRooted, NoneStayBehind};
ghost use Rattle.plan_steps.specs.Example.{ExampleRuns};
ghost use Rattle.plan_steps.specs.GrowthLaws.{GroupsGrow, OthersGrow, UndoIsKept, VersionsAreFollowed};
ghost use Rattle.plan_steps.specs.RowChanges.{RowChangeIsChanged};
ghost use Rattle.plan_steps.specs.Splitting.{SplitIsSplit};
ghost use Rattle.plan_steps.specs.UndoSteps.{UndoStepIsUndone};

/// What the plans that change an item make of the store that pages hold: a row that is inserted, updated or marked
/// as deleted is one version more; a table that is made is one name more, at the next root; and the undoing of either
/// takes the newest version of its place away, also where a leaf is split for it. It does nothing when it is run.
pub fn change_laws()
    ensures change { RowChangeIsChanged }
    ensures create { CreateIsCreated }
    ensures undo { UndoStepIsUndone }
{}

/// What the plans that make pages for a tree make of the store: a split changes no item and no version. It does
/// nothing when it is run.
pub fn split_laws()
    ensures split { SplitIsSplit }
{}

/// The record by which the meta page counts pages changes no other number of it. It does nothing when it is run.
pub fn count_laws()
    ensures counts { CountsAlone }
{}

/// What keeps undo items where they are, and that the versions of an item that was read are found over pages that are
/// read later. It does nothing when it is run.
pub fn growth_laws()
    ensures groups { GroupsGrow }
    ensures others { OthersGrow }
    ensures kept { UndoIsKept }
    ensures followed { VersionsAreFollowed }
{}

/// What the laws of plans ask of a store and its items beside that pages hold it is kept by every group. It does
/// nothing when it is run.
pub fn entry_laws()
    ensures rooted { EntriesStayRooted }
    ensures behind { NoneStayBehind }
{}

/// A row that is written a third time, and the undoing of that, over pages that hold a table with a row of two
/// versions. It does nothing when it is run.
pub fn example_laws()
    ensures runs { ExampleRuns }
{}

/// The joined records of a change, and of its undoing, apply to each page where those of the leaf do. It does nothing
/// when it is run.
pub fn apply_laws()
    ensures change { ChangeApplies }
    ensures undo { UndoApplies }
{}
