//! What a turn comes to is written into the account of the sessions.
ghost use Rattle.std.specs.Prelude.{◌≡◌, OnOk};
ghost use Rattle.cluster_core.specs.Ledgers.{HasRoom, account_of};
ghost use Rattle.cluster_core.specs.Recording as recording;

use crate::ledger::Ledger;
use crate::stages::Report;
use rm_base::{SessionId, Stamp, WantOfMemory};
use session_state::{SessionRow, StatementClass};

/// For what a worker works.
#[derive(Clone, Copy, Debug, PartialEq, Eq)]
pub enum Purpose {
    /// The session's statement.
    Serving(SessionId),
    /// What the session's ended transaction changed is undone.
    Undoing(SessionId),
}

fn class_in(row: &SessionRow) -> StatementClass
    ensures { result ≡ recording.class_in row.now }
{
    match &row.asked {
        None => StatementClass::Wrong,
        Some(asked) => asked.class,
    }
}

fn is_evaluated(class: StatementClass) -> bool
    ensures { result ≡ recording.is_evaluated class }
{
    match class {
        StatementClass::Reads | StatementClass::Writes => true,
        StatementClass::Wrong | StatementClass::Begins | StatementClass::Ends => false,
    }
}

impl Ledger {
    /// Whether the session's statement is one that is evaluated over its snapshot.
    pub fn evaluates(&self, session: SessionId) -> bool
        ensures { result ≡ recording.evaluates (account_of self.now) session }
    {
        match self.sessions.row(session) {
            None => false,
            Some(row) => is_evaluated(class_in(row)),
        }
    }

    fn take_snapshot(&mut self, session: SessionId, stamp: Stamp) -> Result<(), WantOfMemory>
        ensures { OnOk result (account_of self.new ≡ recording.opened session stamp (account_of self.old)) }
    {
        let evaluates = self.evaluates(session);
        self.snap(session, stamp)?;
        if evaluates {
            self.execute(session)?;
        }
        Ok(())
    }

    #[tactic(auto, using(crate::proofs::RecordLaws::counts))]
    fn record_serving(&mut self, session: SessionId, report: Report) -> Result<(), WantOfMemory>
        requires room { HasRoom (account_of self.old) }
        ensures { OnOk result (account_of self.new ≡ recording.served session report (account_of self.old)) }
    {
        match report {
            Report::Went | Report::Rested => Ok(()),
            Report::Used { page, lsn, origin } => self.use_page(session, page, lsn, origin),
            Report::Snapped(stamp) => self.take_snapshot(session, stamp),
            Report::Numbered(trx) => {
                self.number(session, trx);
                Ok(())
            }
            Report::Queued(end) => self.enqueue(session, end),
            Report::Kept(tail) => self.settle(tail),
            Report::Replied(reply) => self.reply(session, reply),
        }
    }

    #[tactic(auto, using(crate::proofs::RecordLaws::counts))]
    fn record_undoing(&mut self, report: Report) -> Result<(), WantOfMemory>
        requires room { HasRoom (account_of self.old) }
        ensures { OnOk result (account_of self.new ≡ recording.undone report (account_of self.old)) }
    {
        match report {
            Report::Kept(tail) => self.settle(tail),
            Report::Rested => {
                self.rest();
                Ok(())
            }
            _ => Ok(()),
        }
    }

    /// Writes down what a turn came to.
    pub fn record(&mut self, purpose: &Purpose, report: Report) -> Result<(), WantOfMemory>
        requires room { HasRoom (account_of self.old) }
        ensures { OnOk result (account_of self.new ≡ recording.recorded purpose.now report (account_of self.old)) }
    {
        match purpose {
            Purpose::Serving(session) => self.record_serving(*session, report),
            Purpose::Undoing(_session) => self.record_undoing(report),
        }
    }
}
