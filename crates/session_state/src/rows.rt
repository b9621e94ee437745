ghost use Rattle.std.specs.Prelude.{◌≡◌, ◌<◌, ◌^◌, ◌-◌};
ghost use Rattle.session_state.specs.Rows as spec;
ghost use Rattle.sql_database.specs.Replies as replies;

use crate::classes::StatementClass;
use crate::places::{Asked, Place, SessionRow};
use rm_base::{Bytes, NodeId, Stamp, TrxId};
use sql_database::SqlReply;

impl Place {
    /// Whether a transaction is open.
    pub fn is_active(&self) -> bool
        ensures { result ≡ spec.is_active self.now }
    {
        matches!(self, Place::Active { .. })
    }

    /// The number of the open transaction. None also where it has none yet.
    pub fn number(&self) -> Option<TrxId>
        ensures { result ≡ spec.number_in self.now }
    {
        match self {
            Place::Active { trx, .. } => *trx,
            Place::Idle | Place::Lost => None,
        }
    }

    fn close(self) -> Place
        ensures { result ≡ spec.closed self }
    {
        match self {
            Place::Active { .. } => Place::Idle,
            Place::Idle => Place::Idle,
            Place::Lost => Place::Lost,
        }
    }

    fn numbered(self, trx: TrxId) -> Place
        ensures { result ≡ spec.with_number trx self }
    {
        match self {
            Place::Active { snap, .. } => Place::Active {
                snap,
                trx: Some(trx),
            },
            Place::Idle => Place::Idle,
            Place::Lost => Place::Lost,
        }
    }
}

impl SessionRow {
    /// A session that joins.
    pub fn idle_on(node: NodeId) -> SessionRow
        ensures { result ≡ spec.idle_on node }
    {
        SessionRow {
            node,
            place: Place::Idle,
            lasting: false,
            count: 0,
            asked: None,
        }
    }

    /// A statement is handed in: its text, its class, its turn, and where its uses begin in the trace.
    pub fn submit(&mut self, text: Bytes, class: StatementClass, turn: u64, uses: usize)
        requires { self.old.count < 2 ^ 32 - 1 }
        ensures { self.new ≡ spec.submitted text class turn uses self.old }
    {
        self.count += 1;
        self.asked = Some(Asked {
            text,
            class,
            number: self.count,
            turn,
            met: false,
            uses,
        });
    }

    /// A statement is refused since its node is down.
    pub fn count(&mut self)
        requires { self.old.count < 2 ^ 32 - 1 }
        ensures { self.new ≡ spec.counted self.old }
    {
        self.count += 1;
    }

    /// A statement is refused, and the session told that its transaction was lost.
    pub fn tell_lost(&mut self)
        requires { self.old.count < 2 ^ 32 - 1 }
        ensures { self.new ≡ spec.told_lost self.old }
    {
        self.count += 1;
        self.place = Place::Idle;
    }

    /// A transaction opens with its snapshot.
    pub fn snap(&mut self, stamp: Stamp)
        ensures { self.new ≡ spec.snapped stamp self.old }
    {
        self.place = Place::Active {
            snap: stamp,
            trx: None,
        };
        self.lasting = false;
    }

    /// The open transaction gets its number.
    pub fn set_number(&mut self, trx: TrxId)
        ensures { self.new ≡ spec.numbered trx self.old }
    {
        self.place = self.place.numbered(trx);
    }

    /// The transaction's commit goes into the queue.
    pub fn enqueue(&mut self)
        ensures { self.new ≡ spec.enqueued self.old }
    {
        self.place = Place::Idle;
        self.lasting = false;
    }

    /// The statement is answered.
    pub fn reply(&mut self, reply: &SqlReply)
        ensures { self.new ≡ spec.replied reply.now self.old }
    {
        let class = self.class_asked();
        let done = is_done(reply);
        if is_giving_up(reply) || class == StatementClass::Ends && done {
            self.close();
        } else if class == StatementClass::Begins && done {
            let place = self.place;
            self.last(place.is_active());
        } else if self.lasting {
            self.last(true);
        } else {
            self.close();
        }
    }

    /// The statement is given up.
    pub fn give_up(&mut self)
        ensures { self.new ≡ spec.given_up self.old }
    {
        if self.lasting && !changes(self.class_asked()) {
            self.last(true);
        } else {
            self.close();
        }
    }

    /// The session's node falls.
    pub fn fall(&mut self)
        ensures { self.new ≡ spec.fallen self.old }
    {
        self.place = if self.lasting {
            Place::Lost
        } else {
            self.place.close()
        };
        self.lasting = false;
        self.asked = None;
    }

    /// Whether the session has a statement or a transaction.
    pub fn is_busy(&self) -> bool
        ensures { result ≡ spec.is_busy self.now }
    {
        self.asked.is_some() || self.place.is_active()
    }

    /// Whether the session has a statement that is unanswered.
    pub fn is_asking(&self) -> bool
        ensures { result ≡ spec.is_asking self.now }
    {
        self.asked.is_some()
    }

    fn class_asked(&self) -> StatementClass
        ensures { result ≡ spec.class_asked self.now }
    {
        match &self.asked {
            Some(asked) => asked.class,
            None => StatementClass::Wrong,
        }
    }

    fn close(&mut self)
        ensures { self.new ≡ spec.without_transaction self.old }
    {
        self.place = self.place.close();
        self.lasting = false;
        self.asked = None;
    }

    fn last(&mut self, lasting: bool)
        ensures { self.new ≡ spec.lasts lasting self.old }
    {
        self.lasting = lasting;
        self.asked = None;
    }
}

/// Whether a statement of the class that is given up takes the transaction along.
fn changes(class: StatementClass) -> bool
    ensures { result ≡ spec.changes class }
{
    match class {
        StatementClass::Writes | StatementClass::Ends => true,
        StatementClass::Wrong | StatementClass::Reads | StatementClass::Begins => false,
    }
}

fn is_done(reply: &SqlReply) -> bool
    ensures { result ≡ replies.is_done reply.now }
{
    matches!(reply, SqlReply::Ok(_))
}

fn is_giving_up(reply: &SqlReply) -> bool
    ensures { result ≡ replies.is_giving_up reply.now }
{
    matches!(
        reply,
        SqlReply::Conflict(_) | SqlReply::PoolFull(_) | SqlReply::SpaceFull | SqlReply::TrxFull
    )
}
