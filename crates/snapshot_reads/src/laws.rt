//! What is read of a snapshot, and what is carried of a read that has begun.
ghost use Rattle.snapshot_reads.specs.Example.{ExampleReads};
ghost use Rattle.snapshot_reads.specs.Laws.{FoundRowsAreThere, FoundTablesAreThere, ImagesSuffice, MissingTablesAreNot, TablesStayKnown};
ghost use Rattle.snapshot_reads.specs.Pasts.{PastGoesOn};
ghost use Rattle.snapshot_reads.specs.Writing.{OthersLeavePast};
ghost use Rattle.snapshot_reads.specs.Open.{Begins, InstallsMore, UsesMore};

/// What a reader finds of tables and of their rows is what its snapshot has. It does nothing when
/// it is run.
pub fn snapshot_laws()
    ensures tables { FoundTablesAreThere }
    ensures missing { MissingTablesAreNot }
    ensures known { TablesStayKnown }
    ensures rows { FoundRowsAreThere }
    ensures images { ImagesSuffice }
{}

/// A read that has begun stays one whose uses rise with their latches: with each use of an image
/// that is current, and with each group that changes no page that it holds. It does nothing when it
/// is run.
pub fn open_laws()
    ensures begins { Begins }
    ensures more { UsesMore }
    ensures installs { InstallsMore }
{}

/// What a reader sees at its snapshot is carried on by each store that leaves it; and for a writer,
/// with the changes of its own transaction, each group of another session leaves it. It does
/// nothing when it is run.
pub fn past_laws()
    ensures on { PastGoesOn }
    ensures others { OthersLeavePast }
{}

/// A reader at a snapshot and a writer over a table with one row of two versions: what each finds,
/// by computation. It does nothing when it is run.
pub fn example_laws()
    ensures reads { ExampleReads }
{}
