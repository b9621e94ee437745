ghost use Rattle.std.specs.Prelude.{◌≡◌, ◌≤◌, ◌<◌, ℕ, List, length};
ghost use Rattle.call_model.specs.Callers.{Label};
ghost use Rattle.call_model.specs.Stages.{Effect.Handles as HandlesCall};
ghost use Rattle.redo_record.specs.declared.redo.Group.{Group};
ghost use Rattle.redo_record.specs.Spelling.{Spells};
ghost use Rattle.redo_record.specs.Effect.{CountsFrom};
ghost use Rattle.redo_durability.specs.Store.{answer_to as answer_by_law, received};
ghost use Rattle.redo_durability.specs.Machine.{State as LogState, handling};
ghost use Rattle.message_network.specs.declared.calls.Reply.{Reply};
ghost use Rattle.page_coherence.specs.Cluster.{State as Pages};
ghost use Rattle.page_coherence.specs.Page.{Page};
ghost use Rattle.pool_laws.specs.Calls.{StorageCall.GetPage, StorageCall.AppendGroups, StorageAnswer.Appended as AppendedAs};
ghost use Rattle.pool_laws.specs.Serving.{Stores};
ghost use Rattle.storage_service.specs.Storage.{Storage, chunk_of, get_answer};
ghost use Rattle.storage_service.specs.Serving.{HandlesAppend};
ghost use Rattle.storage_service.specs.Joining.{byte_count, store_of, said, got_as, HasLog};
ghost use Rattle.log_chunks.specs.Log.{answer_to};

/// What storage does is what the laws of the log and of the pool say of it. It does nothing when it is
/// run.
pub fn storage_laws()
    // An append of groups is answered and kept as the store of the laws of the log does.
    ensures answer { (S : Storage) (epoch offset : ℕ) (bytes : List ℕ) (groups : List Group)
        → Spells bytes groups → said (answer_to S.log epoch offset (length bytes))
        ≡ answer_by_law byte_count (store_of S.log) epoch offset groups }
    ensures store { (S T : Storage) (l : Label) (offset : ℕ) (bytes : List ℕ) (groups : List Group)
        (r : Reply) → Spells bytes groups
        → HandlesAppend l offset bytes S r T
        → store_of T.log ≡ received byte_count (store_of S.log) l.epoch offset groups }

    // So it is the pool's handling of an append: the log's store becomes this one, and no page changes.
    ensures append { (S T : Storage) (l : Label) (offset : ℕ) (bytes : List ℕ) (groups : List Group)
        (r : Reply) (pages : Pages) (log : LogState Group) → Spells bytes groups
        → HandlesAppend l offset bytes S r T
        → log.store ≡ store_of S.log → log.epoch ≡ l.epoch
        → Stores byte_count (HandlesCall l.node (AppendGroups offset groups)
        (AppendedAs (said (answer_to S.log l.epoch offset (length bytes)))))
        pages log pages (handling byte_count log log.epoch offset groups) }

    // The answer to a request for a page is the pool's, where the page's history is that of the log: it
    // tells the image at an LSN that storage has, and no page and no log changes.
    ensures get { (S : Storage) (n p floor : ℕ) (rest : List Group) (pages : Pages) (log : LogState Group)
        → HasLog (pages.page p) p S.log.groups rest → CountsFrom 0 S.log.groups
        → CountsFrom (length S.log.groups) rest
        → S.applied (chunk_of p) ≤ length S.log.groups → log.store ≡ store_of S.log
        → Stores byte_count (HandlesCall n (GetPage p floor) (got_as (get_answer S p floor)))
        pages log pages log }
{}
