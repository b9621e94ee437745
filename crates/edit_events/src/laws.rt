ghost use Rattle.edit_events.specs.Descending.{ChangeGoesDown, UndoGoesDown};
ghost use Rattle.edit_events.specs.Events.{BeginIsEvent, CommitIsEvent, FreeIsEvent, SplitIsEvent, TableIsEvent, UndoIsEvent, UndoneIsRooted, WriteIsEvent, WrittenIsRooted};
ghost use Rattle.edit_events.specs.Example.{ExampleBegins, ExampleSays};
ghost use Rattle.edit_events.specs.Planning.{BeginStands, CommitStands, FreeStands};
ghost use Rattle.edit_events.specs.Reading.{ReadGoesOn, ReadIsPath, WantedFits};

use table_machine::Language;

/// On every way through, the machines that change a leaf ask for the pages of a search for its key, from the
/// root down, as long as none is a leaf; and those that begin and end a transaction hand out a plan for their
/// session that stands on the pages that they were given. It does nothing when it is run.
pub fn asking_laws()
    ensures change { ChangeGoesDown }
    ensures undo { UndoGoesDown }
    ensures goes_on { ReadGoesOn }
    ensures fits { WantedFits }
    ensures begin { BeginStands }
    ensures commit { CommitStands }
    ensures free { FreeStands }
{}

/// A plan that fits what a machine asked for, over pages that are those of the log as it stands, makes the event
/// of a cluster's history happen, and the pages then hold the store that it leaves: the begin, the commit and the
/// freed slot of a transaction; a split, a row's change, the making of a table, and the undo of either. What is
/// read on a way is the way of the tree, and what is written or undone has a root. It does nothing when it is run.
pub fn edit_event_laws<L: Language>()
    ensures begin { BeginIsEvent L.language }
    ensures commit { CommitIsEvent L.language }
    ensures free { FreeIsEvent L.language }
    ensures path { ReadIsPath }
    ensures root { WrittenIsRooted L.language }
    ensures undo_root { UndoneIsRooted }
    ensures split { SplitIsEvent L.language }
    ensures write { WriteIsEvent L.language }
    ensures table { TableIsEvent L.language }
    ensures undo { UndoIsEvent L.language }
{}

/// The first transaction of a small run of two nodes begins by its machine over the pages of the opening; and the
/// item of the table that it makes says the table with whichever root. It does nothing when it is run.
pub fn example_laws()
    ensures begins { ExampleBegins }
    ensures says { ExampleSays }
{}
