//! The laws say something: the pages that a log leaves with a split in it.
ghost use Rattle.std.specs.Prelude.{ℕ};
ghost use Rattle.tree_timeline.specs.Example.{three_items};
ghost use Rattle.tree_timeline.specs.Timeline.{Timeline};
ghost use Rattle.tree_steps.specs.Groups.{left_at};
ghost use Rattle.tree_steps.specs.Example.{split_log};

/// The pages that a log leaves, with a split. It does nothing when it is run.
pub fn log_example()
    // A log that makes a tree of three pages and then splits a leaf leaves a timeline from LSN 1 on.
    ensures { Timeline (left_at split_log 1) 1 1 three_items }
{}
