ghost use Rattle.std.specs.Prelude.{◌≡◌, ◌≤◌, ◌<◌, ◌++◌, ℕ, List};
ghost use Rattle.message_model.specs.declared.Appended.TheVariants.{Fenced};
ghost use Rattle.redo_record.specs.declared.redo.Group.{Group};
ghost use Rattle.log_chunks.specs.Log.{Log, AreLog};
ghost use Rattle.log_chunks.specs.History.{Call, fence, reply, after, after_all, kept, MayCall, MayCallAll};

/// The laws of a log store, over any list of appends and fences. It does nothing when it is run.
pub fn store_laws()
    // The groups are those of the kept appends, in order, behind the groups that were there.
    ensures groups { (log : Log) (calls : List Call) → (after_all log calls).groups ≡ log.groups ++ kept log calls }
    ensures counted { (log : Log) (calls : List Call) → AreLog log.groups → MayCallAll log calls
        → AreLog (after_all log calls).groups }

    // The epoch never falls.
    ensures epoch { (log : Log) (calls : List Call) → MayCallAll log calls → log.epoch ≤ (after_all log calls).epoch }

    // After a fence each append of an older epoch is refused, whatever was called in between.
    ensures fenced { (log : Log) (calls : List Call) (e older offset : ℕ) (groups : List Group) → older < e
        → MayCallAll (after log (fence e)) calls
        → let now = after_all (after log (fence e)) calls in reply now older offset groups ≡ Fenced now.epoch }
{}
