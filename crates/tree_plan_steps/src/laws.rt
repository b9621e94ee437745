ghost use Rattle.tree_plan_steps.specs.EventLaws.{BeginFollows, CommitFollows, CreateFollows, FreeFollows, RoomFollows, RootSplitFollows, SplitFollows, UndoFollows, WriteFollows};
ghost use Rattle.tree_plan_steps.specs.Example.{ExampleRuns};
ghost use Rattle.tree_plan_steps.specs.Laws.{PutChangesLeaf, RemoveChangesLeaf, RootSplitIsSplit, SplitIsSplit};
ghost use Rattle.tree_plan_steps.specs.UndoItemLaws.{LastUndoIsNewest, LastUndoIsRead, OlderIsUndo};

use table_machine::Language;

/// The plans of a tree's changes are the tree's part of the groups that change a store of versions: those that put
/// an item or remove one, and those that split a page or the root. It does nothing when it is run.
pub fn plan_laws()
    ensures put { PutChangesLeaf }
    ensures remove { RemoveChangesLeaf }
    ensures split { SplitIsSplit }
    ensures root_split { RootSplitIsSplit }
{}

/// The group of each plan makes of the store that pages hold exactly the step that the event of a cluster's history
/// asks for: the event happens, and the pages then hold the store that it leaves. It does nothing when it is run.
pub fn event_laws<L: Language>()
    ensures begin { BeginFollows L.language }
    ensures write { WriteFollows L.language }
    ensures create { CreateFollows L.language }
    ensures split { SplitFollows L.language }
    ensures root_split { RootSplitFollows L.language }
    ensures room { RoomFollows L.language }
    ensures commit { CommitFollows L.language }
    ensures undo { UndoFollows L.language }
    ensures free { FreeFollows L.language }
{}

/// The undo item that is read for the last change of a transaction is the one of the first entry of its undo list,
/// within its limits; and what it says stood there is the version before the newest of that place. It does nothing
/// when it is run.
pub fn undo_item_laws()
    ensures limits { OlderIsUndo }
    ensures newest { LastUndoIsNewest }
    ensures read { LastUndoIsRead }
{}

/// The first transaction of a small run of two nodes begins over the pages of the opening, makes its table, and is
/// committed; or is undone by another node where its own is lost before. It does nothing when it is run.
pub fn example_laws()
    ensures runs { ExampleRuns }
{}
