ghost use Rattle.std.specs.Prelude.{◌≡◌, ◌≢◌, ◌+◌, ◌≤◌, ◌<◌, ◌^◌, ◌-◌, ◌&&◌, nat_eq, [], ◌∷◌, ◌++◌, length, map, slice_get, IfOk, OnErr, OnOk, MatchOption, option_to_list, slice_set, None, Some};
ghost use Rattle.std.specs.Option.{option_copied};
ghost use Rattle.session_state.specs.Rows as spec;
ghost use Rattle.session_state.specs.Waiting as waiting;

use crate::classes::StatementClass;
use crate::places::{Place, SessionRow, SessionRows, SessionTable};
use crate::queue::{Queue, Queued};
use rm_base::{Bytes, NodeId, SessionId, SessionList, Stamp, TrxId, WantOfMemory};
use sql_database::SqlReply;

impl SessionTable {
    /// The session's row. None exactly where it did not join.
    pub fn row(&self, session: SessionId) -> Option<&SessionRow>
        ensures { option_copied result ≡ slice_get self.now.sessions session }
    {
        self.sessions.get(place_of(session))
    }

    /// A session joins on the node, with the next number.
    pub fn join(&mut self, node: NodeId) -> Result<(), WantOfMemory>
        ensures ok { OnOk result (self.new ≡ record self.old { sessions = self.old.sessions ++ spec.idle_on node ∷ [] }) }
        ensures err { OnErr result (self.new ≡ self.old) }
    {
        self.sessions.push(SessionRow::idle_on(node))
    }

    /// The session hands in a statement: its text, its class, its turn, and where its uses begin in the trace.
    pub fn submit(
        &mut self,
        session: SessionId,
        text: Bytes,
        class: StatementClass,
        turn: u64,
        uses: usize,
    )
        requires { MatchOption (slice_get self.old.sessions session) (Unit {0}) (λ row. row.count < 2 ^ 32 - 1) }
        ensures { self.new ≡ record self.old { sessions = spec.updated self.old.sessions session (spec.submitted text class turn uses) } }
    {
        if let Some(row) = self.sessions.get_mut(place_of(session)) {
            row.submit(text, class, turn, uses);
        }
    }

    /// The session's statement is refused since its node is down.
    pub fn count(&mut self, session: SessionId)
        requires { MatchOption (slice_get self.old.sessions session) (Unit {0}) (λ row. row.count < 2 ^ 32 - 1) }
        ensures { self.new ≡ record self.old { sessions = spec.updated self.old.sessions session spec.counted } }
    {
        if let Some(row) = self.sessions.get_mut(place_of(session)) {
            row.count();
        }
    }

    /// The session's statement is refused, and it is told that its transaction was lost.
    pub fn tell_lost(&mut self, session: SessionId)
        requires { MatchOption (slice_get self.old.sessions session) (Unit {0}) (λ row. row.count < 2 ^ 32 - 1) }
        ensures { self.new ≡ record self.old { sessions = spec.updated self.old.sessions session spec.told_lost } }
    {
        if let Some(row) = self.sessions.get_mut(place_of(session)) {
            row.tell_lost();
        }
    }

    /// The session's transaction opens with its snapshot.
    pub fn snap(&mut self, session: SessionId, stamp: Stamp)
        ensures { self.new ≡ record self.old { sessions = spec.updated self.old.sessions session (spec.snapped stamp) } }
    {
        if let Some(row) = self.sessions.get_mut(place_of(session)) {
            row.snap(stamp);
        }
    }

    /// The session's open transaction gets its number.
    pub fn set_number(&mut self, session: SessionId, trx: TrxId)
        ensures { self.new ≡ record self.old { sessions = spec.updated self.old.sessions session (spec.numbered trx) } }
    {
        if let Some(row) = self.sessions.get_mut(place_of(session)) {
            row.set_number(trx);
        }
    }

    /// The session's transaction goes into the queue with its stamp and the offset at which its group ends. Takes
    /// no memory.
    pub fn enqueue(&mut self, session: SessionId, stamp: Stamp, end: u64)
        requires { 0 < self.old.queue.spare }
        ensures sessions { self.new.sessions ≡ spec.updated self.old.sessions session spec.enqueued }
        ensures queue { self.new.queue.items ≡ self.old.queue.items ++ (record { owner = Some session; stamp = stamp; end = end }) ∷ [] }
        ensures undoing { self.new.undoing ≡ self.old.undoing }
        ensures spare { self.old.queue.spare ≤ self.new.queue.spare + 1 }
    {
        if let Some(row) = self.sessions.get_mut(place_of(session)) {
            row.enqueue();
        }
        self.queue.push_spare(Queued {
            owner: Some(session),
            stamp,
            end,
        });
    }

    /// The session's statement is answered.
    pub fn reply(&mut self, session: SessionId, reply: &SqlReply)
        ensures { self.new ≡ waiting.moved self.old session (spec.replied reply.now) }
    {
        if let Some(row) = self.sessions.get_mut(place_of(session)) {
            let before = row.place;
            row.reply(reply);
            note_undoing(&mut self.undoing, session, before, row.place);
        }
    }

    /// The session's statement is given up. It waits for no commit any more.
    pub fn give_up(&mut self, session: SessionId)
        ensures rows { self.new ≡ record (waiting.moved self.old session spec.given_up) { queue = self.new.queue } }
        ensures queue { self.new.queue.items ≡ waiting.disowned session self.old.queue.items }
        ensures spare { self.old.queue.spare ≤ self.new.queue.spare }
    {
        if let Some(row) = self.sessions.get_mut(place_of(session)) {
            let before = row.place;
            row.give_up();
            note_undoing(&mut self.undoing, session, before, row.place);
        }
        disown(&mut self.queue, session);
    }

    /// The session's node falls. It waits for no commit any more.
    pub fn fall(&mut self, session: SessionId)
        ensures sessions { self.new.sessions ≡ spec.updated self.old.sessions session spec.fallen }
        ensures undoing { self.new.undoing ≡ self.old.undoing }
        ensures queue { self.new.queue.items ≡ waiting.disowned session self.old.queue.items }
        ensures spare { self.old.queue.spare ≤ self.new.queue.spare }
    {
        if let Some(row) = self.sessions.get_mut(place_of(session)) {
            row.fall();
        }
        disown(&mut self.queue, session);
    }

    /// The first commit of the queue settles. None exactly where none waits.
    pub fn settle(&mut self) -> Option<Queued>
        ensures first { self.old.queue.items ≡ option_to_list result ++ self.new.queue.items }
        ensures none { result ≡ None → self.old.queue.items ≡ [] }
        ensures sessions { self.new.sessions ≡ self.old.sessions }
        ensures undoing { self.new.undoing ≡ self.old.undoing }
        ensures spare { self.old.queue.spare ≤ self.new.queue.spare }
    {
        self.queue.take_first()
    }

    /// The sessions of the node that have a statement or a transaction, ascending.
    pub fn busy_on(&self, node: NodeId) -> SessionList
        requires { length self.now.sessions ≤ 64 }
        ensures { result ≡ spec.places_from (λ row. nat_eq row.node node && spec.is_busy row) 0 self.now.sessions }
    {
        let mut found = SessionList::new();
        for (at, row) in self.sessions.as_slice().iter().enumerate() {
            if row.node == node && row.is_busy() {
                note_place(&mut found, at);
            }
        }
        found
    }

    /// The sessions whose statement is unanswered, ascending.
    pub fn asking(&self) -> SessionList
        requires { length self.now.sessions ≤ 64 }
        ensures { result ≡ spec.places_from spec.is_asking 0 self.now.sessions }
    {
        let mut found = SessionList::new();
        for (at, row) in self.sessions.as_slice().iter().enumerate() {
            if row.is_asking() {
                note_place(&mut found, at);
            }
        }
        found
    }
}

fn place_of(session: SessionId) -> usize
    ensures { result ≡ session }
{
    usize::from(session.number())
}

/// Puts the place at the end, as a session.
fn note_place(found: &mut SessionList, at: usize)
    requires place { at ≤ 63 }
    requires room { length found.old < 64 }
    ensures { found.new ≡ found.old ++ at ∷ [] }
{
    if let Some(session) = SessionId::new(at as u8) {
        let _ = found.try_push(session);
    }
}

/// Puts the session at the end where its transaction ended without a commit and has changes to undo.
fn note_undoing(undoing: &mut SessionList, session: SessionId, before: Place, after: Place)
    ensures { undoing.new ≡ waiting.with_undoing (waiting.leaves_changes before after) session undoing.old }
{
    if before.number().is_some() && !after.is_active() {
        let _ = undoing.try_push(session);
    }
}

/// The session waits for none of these commits any more.
fn disown(queue: &mut Queue, session: SessionId)
    ensures items { queue.new.items ≡ waiting.disowned session queue.old.items }
    ensures spare { queue.old.spare ≤ queue.new.spare }
{
    for at in 0..queue.len() {
        disown_at(queue, at, session);
    }
}

fn disown_at(queue: &mut Queue, at: usize, session: SessionId)
    requires { at < length queue.old.items }
    ensures items { (item : Queued) → slice_get queue.old.items at ≡ Some item
        → queue.new.items ≡ slice_set queue.old.items at (waiting.disowned_item session item) }
    ensures spare { queue.old.spare ≤ queue.new.spare }
{
    let item = queue.as_slice()[at];
    queue.set(at, disowned_item(item, session));
}

fn disowned_item(item: Queued, session: SessionId) -> Queued
    ensures { result ≡ waiting.disowned_item session item }
{
    if item.owner == Some(session) {
        Queued {
            owner: None,
            ..item
        }
    } else {
        item
    }
}
