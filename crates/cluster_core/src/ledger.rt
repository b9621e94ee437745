//! What a cluster keeps of its sessions.
ghost use Rattle.std.specs.Prelude.{◌≡◌, ◌≢◌, ◌<◌, ◌+◌, ◌≤◌, ◌-◌, ◌^◌, IsTrue, ◌↔◌, OnOk, IfOk, [], Some, None, length, slice_get, MatchOption};
ghost use Rattle.cluster_core.specs.Ledgers.{CanAsk, HasRoom, IsCounted, IsStarted, MaySubmit, account_of, executed, is_kept, joined, number_asked, number_in, numbered, queued, replied, rested, settled, settles, snapped, submitted, used};

use cluster_model::{Answered, AnsweredList, Origin, Trace, Use, Uses};
use rm_base::{Bytes, Lsn, Name, NodeId, PageId, SessionId, Stamp, TrxId, WantOfMemory};
use session_state::{Place, Queue, SessionRow, SessionTable, StatementClass};
use sql_database::SqlReply;
use std::alloc::Global;
use table_machine::{Entry, Journal};

/// The sessions, their journal and what they read, how many commits are published and how many statements were
/// handed in.
#[derive(Debug, Drop)]
pub struct Ledger {
    pub sessions: SessionTable,
    pub journal: Journal,
    pub trace: Trace,
    pub published: Stamp,
    pub submitted: u64,
}

impl Ledger {
    /// Keeps the allocator, and takes no memory yet.
    pub fn new(alloc: Global, published: Stamp) -> Ledger
        ensures { IsStarted published (account_of result) }
    {
        Ledger {
            sessions: SessionTable::new(alloc),
            journal: Journal::new(alloc),
            trace: Trace {
                uses: Uses::new(alloc),
                answered: AnsweredList::new(alloc),
            },
            published,
            submitted: 0,
        }
    }

    /// Whether another commit can be counted.
    pub fn has_room(&self) -> bool
        ensures { IsTrue result ↔ HasRoom (account_of self.now) }
    {
        let waiting = self.sessions.queue.len() as u64;
        let published = self.published.number();
        published < u64::MAX && waiting < u64::MAX - published
    }

    /// A session joins on the node. None exactly where there are 64.
    pub fn join(&mut self, name: Name, node: NodeId) -> Result<Option<SessionId>, WantOfMemory>
        ensures joins { IfOk result (λ o. MatchOption o (account_of self.new ≡ account_of self.old)
            (λ s. (s ≡ length self.old.sessions.sessions)
            × (account_of self.new ≡ joined name node (account_of self.old)))) }
        ensures full { IfOk result (λ o. (o ≡ None) ↔ (64 ≤ length self.old.sessions.sessions)) }
    {
        let count = self.sessions.sessions.len();
        if count >= 64 {
            return Ok(None);
        }
        let Some(session) = SessionId::new(count as u8) else {
            unreachable!()
        };
        self.sessions.join(node)?;
        self.journal.push(Entry::Join {
            session,
            name,
            node,
        })?;
        Ok(Some(session))
    }

    /// Whether the session can hand in a statement: it joined, it has none and lost no transaction, and the
    /// statement can be counted.
    pub fn may_submit(&self, session: SessionId) -> bool
        ensures { IsTrue result ↔ MaySubmit (account_of self.now) session }
    {
        match self.sessions.row(session) {
            None => false,
            Some(row) => self.submitted < u64::MAX && can_ask(row),
        }
    }

    /// The session hands in a statement, of which only the class is known yet.
    pub fn submit(
        &mut self,
        session: SessionId,
        text: Bytes,
        copy: Bytes,
        class: StatementClass,
    ) -> Result<(), WantOfMemory>
        requires may { MaySubmit (account_of self.old) session }
        requires same { copy ≡ text }
        ensures submits { OnOk result (account_of self.new ≡ submitted session text class (account_of self.old)) }
    {
        let uses = self.trace.uses.len();
        let turn = self.submitted;
        self.sessions.submit(session, text, class, turn, uses);
        self.submitted = turn + 1;
        self.journal.push(Entry::Submit {
            session,
            text: copy,
        })
    }

    /// The session's statement is evaluated.
    pub fn execute(&mut self, session: SessionId) -> Result<(), WantOfMemory>
        ensures { OnOk result (account_of self.new ≡ executed session (account_of self.old)) }
    {
        self.journal.push(Entry::Exec { session })
    }

    /// A transaction of the session opens with its snapshot.
    pub fn snap(&mut self, session: SessionId, stamp: Stamp) -> Result<(), WantOfMemory>
        ensures { OnOk result (account_of self.new ≡ snapped session stamp (account_of self.old)) }
    {
        self.sessions.snap(session, stamp);
        self.journal.push(Entry::Snap { session })
    }

    /// The session's transaction gets its number.
    pub fn number(&mut self, session: SessionId, trx: TrxId)
        ensures { account_of self.new ≡ numbered session trx (account_of self.old) }
    {
        self.sessions.set_number(session, trx);
    }

    /// The session's commit waits. Its group ends at the offset of the log.
    pub fn enqueue(&mut self, session: SessionId, end: u64) -> Result<(), WantOfMemory>
        requires room { HasRoom (account_of self.old) }
        ensures { OnOk result (account_of self.new ≡ queued session end (account_of self.old)) }
    {
        let waiting = self.sessions.queue.len() as u64;
        let stamp = Stamp::new(self.published.number() + waiting + 1);
        self.sessions.queue.reserve(1)?;
        self.sessions.enqueue(session, stamp, end);
        self.journal.push(Entry::Enqueue { session })
    }

    /// The session's statement used a page.
    pub fn use_page(
        &mut self,
        session: SessionId,
        page: PageId,
        lsn: Lsn,
        origin: Origin,
    ) -> Result<(), WantOfMemory>
        ensures { OnOk result (account_of self.new ≡ used session page lsn origin (account_of self.old)) }
    {
        let number = self.number_asked(session);
        self.trace.uses.push(Use {
            session,
            number,
            page,
            lsn,
            origin,
        })
    }

    /// The session's statement is answered.
    pub fn reply(&mut self, session: SessionId, reply: SqlReply) -> Result<(), WantOfMemory>
        ensures { OnOk result (account_of self.new ≡ replied session reply (account_of self.old)) }
    {
        let number = self.number_asked(session);
        self.sessions.reply(session, &reply);
        self.trace.answered.push(Answered { session, number })?;
        self.journal.push(Entry::Reply { session, reply })
    }

    /// Nothing is left to undo of the session that comes first.
    pub fn rest(&mut self)
        ensures { account_of self.new ≡ rested (account_of self.old) }
    {
        if !self.sessions.undoing.is_empty() {
            let _session = self.sessions.undoing.remove(0);
        }
    }

    /// The first commit settles.
    fn settle_first(&mut self) -> Result<(), WantOfMemory>
        requires some { self.old.sessions.queue.items ≢ [] }
        requires counted { IsCounted (account_of self.old) }
        ensures settles { OnOk result (account_of self.new ≡ settles (account_of self.old)) }
        ensures counted { OnOk result (IsCounted (account_of self.new)) }
    {
        let _commit = self.sessions.settle();
        self.published = Stamp::new(self.published.number() + 1);
        self.journal.push(Entry::Settle)
    }

    /// The commits whose groups end at the offset or before it settle.
    #[tactic(auto, using(crate::proofs::LedgerSteps::settled_on, crate::proofs::LedgerSteps::settled_end, crate::proofs::LedgerSteps::has_first))]
    pub fn settle(&mut self, tail: u64) -> Result<(), WantOfMemory>
        requires counted { IsCounted (account_of self.old) }
        ensures settles { OnOk result (account_of self.new ≡ settled tail (account_of self.old)) }
        ensures counted { OnOk result (IsCounted (account_of self.new)) }
    {
        while is_kept(&self.sessions.queue, tail) {
            self.settle_first()?;
        }
        Ok(())
    }

    fn number_asked(&self, session: SessionId) -> u32
        ensures { result ≡ number_asked (account_of self.now).sessions session }
    {
        match self.sessions.row(session) {
            None => 0,
            Some(row) => number_in(row),
        }
    }
}

/// Whether the first commit that waits ends at the offset or before it.
fn is_kept(queue: &Queue, tail: u64) -> bool
    ensures { result ≡ is_kept tail queue.now.items }
{
    match queue.as_slice() {
        [] => false,
        [first, ..] => first.end <= tail,
    }
}

fn number_in(row: &SessionRow) -> u32
    ensures { result ≡ number_in row.now }
{
    match &row.asked {
        None => 0,
        Some(asked) => asked.number,
    }
}

fn can_ask(row: &SessionRow) -> bool
    ensures { IsTrue result ↔ CanAsk row.now }
{
    match row.place {
        Place::Lost => false,
        Place::Idle | Place::Active { .. } => row.asked.is_none() && row.count < u32::MAX,
    }
}
