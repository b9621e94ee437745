ghost use Rattle.std.specs.Prelude.{ℕ, List, [], ◌∷◌, ◌≡◌, ◌≢◌, ◌↔◌, ◌≤◌, IsTrue, ◌<◌, OnOk, OnErr, IfErr, Option, IsErrOf, IsSome, IsNone};
ghost use Rattle.sql_database.specs.Database.{empty};
ghost use Rattle.rm_env.specs.Faults.{Rose};
ghost use Rattle.table_machine.specs.Serving.{TableState, at_rest};
ghost use Rattle.rmem_db.specs.Keeping.{HasKept};
ghost use Rattle.rmem_db.specs.Lines.{is_blank, filled};
ghost use Rattle.rmem_db.specs.Reading.{HasNoLf};
ghost use Rattle.rmem_db.specs.Serving.{Answered, Serves, StoppedIn, Ends, HasCause, IsCutOff, status_after};
ghost use Rattle.rmem_db.specs.Session.{Stands};

use crate::language::Sql;
use crate::reading::{Filled, Input, ReadNo};
use crate::reply_writing::write_reply;
use crate::session::OneSession;
use crate::status::Status;
use crate::tables::Working;
use crate::writing::write_piece;
use paged_tables::PagedTables;
use rm_env::{Sink, SinkNo, Source};
use std::alloc::Global;
use table_machine::serving_laws;

/// Whether the line is of spaces, tabs and CRs alone.
fn is_blank(line: &[u8]) -> bool
    ensures { result ≡ is_blank line.now }
{
    line.iter()
        .all(|b| *b == b' ' || *b == b'\t' || *b == b'\r')
}

/// Answers one line, and writes the reply. A blank line is passed over. After an `Err` nothing is said of
/// the session but what its tables keep.
fn answer<W: Working, K: Sink>(
    alloc: Global,
    session: &mut OneSession<W>,
    line: &[u8],
    sink: &mut K,
) -> Result<(), SinkNo>
    requires { (t : TableState) × Stands W.kept W.tables session.old t }
    ensures ok { (t : TableState) → Stands W.kept W.tables session.old t
        → OnOk result (Answered t (filled (line.now ∷ [])) (Stands W.kept W.tables session.new) (K.taken sink.old) (K.taken sink.new)) }
    ensures err { (t : TableState) → Stands W.kept W.tables session.old t
        → OnErr result (StoppedIn t (filled (line.now ∷ [])) (W.kept session.new.tables) (K.taken sink.old) (K.taken sink.new)) }
    ensures count { K.faults sink.old ≤ K.faults sink.new }
    ensures failed { IsErrOf result SinkNo.Failed → Rose (K.faults sink.old) (K.faults sink.new) }
{
    if is_blank(line) {
        return Ok(());
    }
    let reply = session.answer(alloc, line)?;
    write_reply(alloc, &reply, sink)
}

/// Answers each whole line that is held.
fn answer_held<W: Working, K: Sink>(
    alloc: Global,
    session: &mut OneSession<W>,
    input: &mut Input,
    sink: &mut K,
) -> Result<(), SinkNo>
    requires { (t : TableState) × Stands W.kept W.tables session.old t }
    ensures stands { OnOk result ((t : TableState) × Stands W.kept W.tables session.new t) }
    ensures none { OnOk result (HasNoLf input.new.bytes) }
    ensures taken { OnOk result (input.new.taken ≡ input.old.taken) }
    ensures serves { (left left' taken : Option (List ℕ))
        → Serves left left' taken (K.taken sink.old) (Stands W.kept W.tables session.old) input.old
        → OnOk result (Serves left left' taken (K.taken sink.new) (Stands W.kept W.tables session.new) input.new) }
    ensures cut { (left left' taken : Option (List ℕ))
        → Serves left left' taken (K.taken sink.old) (Stands W.kept W.tables session.old) input.old
        → OnErr result (IsCutOff left left' taken (K.taken sink.new) (W.kept session.new.tables)) }
    ensures count { K.faults sink.old ≤ K.faults sink.new }
    ensures failed { IsErrOf result SinkNo.Failed → Rose (K.faults sink.old) (K.faults sink.new) }
{
    serving_laws::<Sql>();
    while let Some(n) = input.line_end() {
        answer(alloc, session, input.front(n), sink)?;
        input.pass(n + 1);
    }
    Ok(())
}

/// The status after a last writing.
pub(crate) fn status_after(written: Result<(), SinkNo>, whole: Status) -> Status
    ensures { result ≡ status_after written whole }
{
    match written {
        Ok(()) => whole,
        Err(SinkNo::Failed) => Status::WriteFault,
        Err(SinkNo::WantOfMemory) => Status::WantOfMemory,
    }
}

/// Answers the whole lines that are held, and then asks for more. An `Err` ends the run.
fn turn<W: Working, S: Source, K: Sink>(
    alloc: Global,
    session: &mut OneSession<W>,
    input: &mut Input,
    source: &mut S,
    sink: &mut K,
) -> Result<(), Status>
    requires { (t : TableState) × Stands W.kept W.tables session.old t }
    ensures stands { OnOk result ((t : TableState) × Stands W.kept W.tables session.new t) }
    ensures more { OnOk result (input.old.taken < input.new.taken) }
    ensures few { OnOk result (input.new.taken ≤ 4194304) }
    ensures serves { (left taken : Option (List ℕ))
        → Serves left (S.left source.old) taken (K.taken sink.old) (Stands W.kept W.tables session.old) input.old
        → OnOk result (Serves left (S.left source.new) taken (K.taken sink.new) (Stands W.kept W.tables session.new) input.new) }
    ensures ends { (left taken : Option (List ℕ))
        → Serves left (S.left source.old) taken (K.taken sink.old) (Stands W.kept W.tables session.old) input.old
        → IfErr result (λ status. Ends status left (S.left source.new) taken (K.taken sink.new) (W.kept session.new.tables)) }
    ensures cause { IfErr result (λ status. HasCause status
        (S.faults source.old) (S.faults source.new) (K.faults sink.old) (K.faults sink.new)) }
    ensures source_count { S.faults source.old ≤ S.faults source.new }
    ensures sink_count { K.faults sink.old ≤ K.faults sink.new }
{
    serving_laws::<Sql>();
    if let Err(no) = answer_held(alloc, session, input, sink) {
        return Err(status_after(Err(no), Status::Done));
    }
    match input.fill(source) {
        Ok(Filled::More) => Ok(()),
        Ok(Filled::End) => Err(status_after(
            answer(alloc, session, input.rest(), sink),
            Status::Done,
        )),
        Ok(Filled::TooLong) => Err(status_after(write_piece(sink, b"too long\n"), Status::TooLong)),
        Err(ReadNo::Failed) => Err(Status::ReadFault),
        Err(ReadNo::WantOfMemory) => Err(Status::WantOfMemory),
    }
}

/// Answers the source's lines in their order, each before more is read. It takes at most 4,194,305 bytes,
/// and at most 65,536 with one read.
fn serve_over<W: Working, S: Source, K: Sink>(
    alloc: Global,
    session: &mut OneSession<W>,
    source: &mut S,
    sink: &mut K,
) -> Status
    requires start { Stands W.kept W.tables session.old (at_rest empty) }
    ensures ends { Ends result (S.left source.old) (S.left source.new)
        (K.taken sink.old) (K.taken sink.new) (W.kept session.new.tables) }
    ensures cause { HasCause result
        (S.faults source.old) (S.faults source.new) (K.faults sink.old) (K.faults sink.new) }
{
    serving_laws::<Sql>();
    let Ok(mut input) = Input::new(alloc) else {
        return Status::WantOfMemory;
    };
    loop {
        if let Err(status) = turn(alloc, session, &mut input, source, sink) {
            return status;
        }
    }
}

/// Answers the source's lines over tables on pages, which are empty at first, and leaves these in `kept`.
pub(crate) fn serve<S: Source, K: Sink>(
    alloc: Global,
    source: &mut S,
    sink: &mut K,
    kept: &mut Option<PagedTables>,
) -> Status
    requires { IsNone kept.old }
    ensures ends { Ends result (S.left source.old) (S.left source.new)
        (K.taken sink.old) (K.taken sink.new) (HasKept kept.new) }
    ensures cause { HasCause result
        (S.faults source.old) (S.faults source.new) (K.faults sink.old) (K.faults sink.new) }
    ensures kept { result ≢ Status.WantOfMemory → IsSome kept.new }
{
    serving_laws::<Sql>();
    let Ok(tables) = PagedTables::new(alloc) else {
        return Status::WantOfMemory;
    };
    let mut session = OneSession {
        tables,
        in_transaction: false,
    };
    let status = serve_over(alloc, &mut session, source, sink);
    let mut tables = session.tables;
    tables.give_back();
    *kept = Some(tables);
    status
}
