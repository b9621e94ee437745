ghost use Rattle.std.specs.Prelude.{◌≡◌, ◌≢◌, ◌↔◌, IsTrue, IsSome, IsNone, map, string_bytes};
ghost use Rattle.rmem_db.specs.Keeping.{HasKept};
ghost use Rattle.rmem_db.specs.Serving.{Ends, Refuses, HasCause, IsServe};

use crate::serving::{serve, status_after};
use crate::status::Status;
use crate::writing::write_piece;
use paged_tables::PagedTables;
use rm_env::{Sink, Source};
use std::alloc::Global;

/// Whether the words are `serve` alone.
fn is_serve(words: &Vec<String>) -> bool
    ensures { IsTrue result ↔ IsServe (map string_bytes words.now.items) }
{
    match words.as_slice() {
        [word] => word.as_str() == "serve",
        _ => false,
    }
}

/// Does all that the program does. `words` are those behind the program's name; over `serve` alone the
/// lines of the source are answered, and over any other words a line that refuses them is written and
/// the source is not read. The tables of the run are left in `kept`, without what a transaction changed
/// that is open at the end.
pub fn run<S: Source, K: Sink>(
    alloc: Global,
    words: &Vec<String>,
    source: &mut S,
    sink: &mut K,
    kept: &mut Option<PagedTables>,
) -> Status
    requires fresh { IsNone kept.old }

    // What each status means for the bytes that the source gave and the sink took, and for the database of
    // which the tables that are left have the log and the pages that it makes.
    ensures serves { IsServe (map string_bytes words.now.items) → Ends result
        (S.left source.old) (S.left source.new) (K.taken sink.old) (K.taken sink.new) (HasKept kept.new) }

    // Tables are left over `serve`, but where there was no memory, and over other words none.
    ensures kept { IsServe (map string_bytes words.now.items) → result ≢ Status.WantOfMemory → IsSome kept.new }
    ensures none { ¬ (IsServe (map string_bytes words.now.items)) → IsNone kept.new }

    // `BadWords` comes exactly where the words are refused, but where the sink fails.
    ensures refuses { ¬ (IsServe (map string_bytes words.now.items))
        → Refuses result (K.taken sink.old) (K.taken sink.new) }
    ensures bad_words { result ≡ Status.BadWords → ¬ (IsServe (map string_bytes words.now.items)) }
    ensures unread { ¬ (IsServe (map string_bytes words.now.items)) → source.new ≡ source.old }

    // `ReadFault` and `WriteFault` come only where the counts of faults rose in this call.
    ensures cause { HasCause result
        (S.faults source.old) (S.faults source.new) (K.faults sink.old) (K.faults sink.new) }
{
    if is_serve(words) {
        return serve(alloc, source, sink, kept);
    }
    status_after(write_piece(sink, b"bad words\n"), Status::BadWords)
}
