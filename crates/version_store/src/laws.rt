ghost use Rattle.version_store.specs.Example.{ExampleReads};
ghost use Rattle.version_store.specs.Groups.{GroupsKeep, GroupsMoveChains, LogsKeep};
ghost use Rattle.version_store.specs.Reading.{CommitHidesBefore, CommitShowsOwn, LateLooksAgree, OpenIsUnseen};

/// What each group keeps of a store, and what it does to the versions under each name and key. It does nothing when
/// it is run.
pub fn group_laws()
    ensures keep { GroupsKeep }
    ensures logs { LogsKeep }
    ensures chains { GroupsMoveChains }
{}

/// What a reader sees of versions beside open transactions, commits and late looks at stamps. It does nothing when
/// it is run.
pub fn reading_laws()
    ensures unseen { OpenIsUnseen }
    ensures shows { CommitShowsOwn }
    ensures hides { CommitHidesBefore }
    ensures late { LateLooksAgree }
{}

/// A list of groups, and what readers see of the store that it leaves, by computation. It does nothing when it is run.
pub fn example_laws()
    ensures reads { ExampleReads }
{}
