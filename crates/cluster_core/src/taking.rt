//! What a node's worker takes up: a session's statement, or what is to be undone of an ended transaction.
ghost use Rattle.std.specs.Prelude.{◌≡◌, IfOk, OnOk};
ghost use Rattle.page_pool.specs.Nodes.{Job.Rests};
ghost use Rattle.std.specs.Result.{result_ok};
ghost use Rattle.session_state.specs.Rows.{class_of};
ghost use Rattle.sql_front.specs.Sentences.{Reads};
ghost use Rattle.cluster_core.specs.Pools.{IsServing};
ghost use Rattle.cluster_core.specs.Ledgers.{account_of};
ghost use Rattle.cluster_core.specs.Stages.{PlansRun, Stands};
ghost use Rattle.cluster_core.specs.Taking as taking;
ghost use Rattle.cluster_core.specs.Taking.{IsBegun, ReadsAsked, StartsCalmly, Submits, Takes, TakesRead};
ghost use Rattle.cluster_core.specs.Ledgers.{MaySubmit};
ghost use Rattle.cluster_core.specs.declared.recording.Purpose.TheVariants.{Serving, Undoing};

use crate::beginning::begin;
use crate::desks::Task;
use crate::ledger::Ledger;
use crate::recording::Purpose;
use crate::stages::Stage;
use page_pool::PagePool;
use rm_base::{Bytes, Duplicate, NodeId, SessionId, WantOfMemory};
use session_state::{Place, SessionRow, StatementClass, class_of};
use sql_database::SqlReply;
use sql_front::parse;
use sql_statements::Stmt;
use statement_work::{Given, Job, Worker};
use std::alloc::Global;

/// The statement that a text is, or the offset at which it is wrong first.
fn read(alloc: Global, text: &[u8]) -> Result<Result<Stmt, usize>, WantOfMemory>
    ensures { IfOk result (λ read. Reads text.now read) }
{
    match parse(alloc, text)? {
        Ok(statement) => Ok(Ok(statement)),
        Err(syntax) => Ok(Err(syntax.at)),
    }
}

/// The class of a text that was read so.
fn class_read(reading: &Result<Stmt, usize>) -> StatementClass
    ensures { result ≡ class_of (result_ok reading.now) }
{
    match reading {
        Ok(statement) => class_of(Some(statement)),
        Err(_) => class_of(None),
    }
}

/// What the session's unanswered statement is read as. None exactly where it has none.
#[tactic(auto, using(crate::proofs::TakeLaws::asked_none, crate::proofs::TakeLaws::asked_read))]
fn read_asked(alloc: Global, row: &SessionRow) -> Result<Option<Result<Stmt, usize>>, WantOfMemory>
    ensures { IfOk result (λ o. ReadsAsked row.now.asked o) }
{
    match &row.asked {
        None => Ok(None),
        Some(asked) => {
            let reading = read(alloc, asked.text.as_slice())?;
            Ok(Some(reading))
        }
    }
}

/// The job that a statement of the session is.
fn job_for(row: &SessionRow, session: SessionId, statement: Stmt) -> Job
    ensures { result ≡ taking.job_for session statement row.now }
{
    let snapshot = match row.place {
        Place::Active { snap, .. } => Some(snap),
        Place::Idle | Place::Lost => None,
    };
    Job {
        session,
        statement,
        snapshot,
        trx: row.place.number(),
        lasting: row.lasting,
    }
}

/// The worker begins the job.
#[tactic(auto, using(crate::proofs::HearLaws::runs, crate::proofs::HearLaws::begun_serves, crate::proofs::TakeLaws::begun))]
pub fn take_job<P: PagePool, W: Worker>(
    alloc: Global,
    pool: &mut P,
    worker: &mut W,
    n: NodeId,
    job: Job,
) -> Result<Task, WantOfMemory>
    requires serves { IsServing n (P.state pool.old) }
    requires free { ((P.state pool.old).node n).job ≡ Rests }
    requires calm { PlansRun W.terms (P.state pool.old) (W.serves job) }
    ensures begins { IfOk result (λ task. IsBegun W.terms n (Serving job.session) (W.serves job)
        (P.state pool.old) (P.state pool.new) (W.work worker.new) task) }
    ensures serves { OnOk result (IsServing n (P.state pool.new)) }
    ensures stands { IfOk result (λ task. Stands W.terms (W.work worker.new) ((P.state pool.new).node n) task.stage) }
{
    let session = job.session;
    let act = worker.next(alloc, Given::Start(job))?;
    let stage = begin(alloc, pool, n, act)?;
    Ok(Task {
        purpose: Purpose::Serving(session),
        stage,
    })
}

/// The worker begins what the session's text was read as; a text that is no statement is answered at once.
#[tactic(auto, using(crate::proofs::TakeLaws::calm_job, crate::proofs::TakeLaws::takes_statement))]
fn take_read<P: PagePool, W: Worker>(
    alloc: Global,
    pool: &mut P,
    worker: &mut W,
    n: NodeId,
    session: SessionId,
    row: &SessionRow,
    read: Result<Stmt, usize>,
) -> Result<Task, WantOfMemory>
    requires serves { IsServing n (P.state pool.old) }
    requires free { ((P.state pool.old).node n).job ≡ Rests }
    requires calm { StartsCalmly W.terms W.serves (P.state pool.old) }
    ensures takes { IfOk result (λ task. TakesRead W.terms W.serves n session row.now read
        (P.state pool.old) (P.state pool.new) (W.work worker.new) task) }
    ensures serves { OnOk result (IsServing n (P.state pool.new)) }
    ensures stands { IfOk result (λ task. Stands W.terms (W.work worker.new) ((P.state pool.new).node n) task.stage) }
{
    match read {
        Ok(statement) => {
            let job = job_for(row, session, statement);
            let task = take_job(alloc, pool, worker, n, job)?;
            Ok(task)
        }
        Err(at) => Ok(Task {
            purpose: Purpose::Serving(session),
            stage: Stage::Replying(SqlReply::Syntax(at)),
        }),
    }
}

/// The worker takes up the session's unanswered statement. None exactly where it has none.
#[tactic(auto, using(crate::proofs::TakeLaws::takes_asked, crate::proofs::TakeLaws::takes_none))]
pub fn take_statement<P: PagePool, W: Worker>(
    alloc: Global,
    pool: &mut P,
    worker: &mut W,
    n: NodeId,
    session: SessionId,
    row: &SessionRow,
) -> Result<Option<Task>, WantOfMemory>
    requires serves { IsServing n (P.state pool.old) }
    requires free { ((P.state pool.old).node n).job ≡ Rests }
    requires calm { StartsCalmly W.terms W.serves (P.state pool.old) }
    ensures takes { IfOk result (λ task. Takes W.terms W.serves n session row.now
        (P.state pool.old) (P.state pool.new) (W.work worker.new) task) }
    ensures serves { OnOk result (IsServing n (P.state pool.new)) }
{
    match read_asked(alloc, row)? {
        None => Ok(None),
        Some(read) => {
            let task = take_read(alloc, pool, worker, n, session, row, read)?;
            Ok(Some(task))
        }
    }
}

/// The worker begins to undo what the session's ended transaction changed.
#[tactic(auto, using(crate::proofs::HearLaws::runs, crate::proofs::HearLaws::begun_serves, crate::proofs::TakeLaws::begun))]
pub fn take_undoing<P: PagePool, W: Worker>(
    alloc: Global,
    pool: &mut P,
    worker: &mut W,
    n: NodeId,
    session: SessionId,
) -> Result<Task, WantOfMemory>
    requires serves { IsServing n (P.state pool.old) }
    requires free { ((P.state pool.old).node n).job ≡ Rests }
    requires calm { PlansRun W.terms (P.state pool.old) (W.undoes session) }
    ensures begins { IfOk result (λ task. IsBegun W.terms n (Undoing session) (W.undoes session)
        (P.state pool.old) (P.state pool.new) (W.work worker.new) task) }
    ensures serves { OnOk result (IsServing n (P.state pool.new)) }
    ensures stands { IfOk result (λ task. Stands W.terms (W.work worker.new) ((P.state pool.new).node n) task.stage) }
{
    let act = worker.next(alloc, Given::Undo(session))?;
    let stage = begin(alloc, pool, n, act)?;
    Ok(Task {
        purpose: Purpose::Undoing(session),
        stage,
    })
}

impl Ledger {
    /// The session hands in a text.
    #[tactic(auto, using(crate::proofs::TakeLaws::submits))]
    pub fn hand_in(
        &mut self,
        alloc: Global,
        session: SessionId,
        text: Bytes,
    ) -> Result<(), WantOfMemory>
        requires may { MaySubmit (account_of self.old) session }
        ensures { OnOk result (Submits session text (account_of self.old) (account_of self.new)) }
    {
        let copy = text.copy(alloc)?;
        let reading = read(alloc, text.as_slice())?;
        let class = class_read(&reading);
        drop(reading);
        self.submit(session, text, copy, class)?;
        Ok(())
    }
}
