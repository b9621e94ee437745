//! What a turn comes to.
ghost use Rattle.std.specs.Prelude.{◌≡◌, None, Some, IsSome, IfOk, option_map};
ghost use Rattle.question_tree.specs.Questions.{after, wanted};
ghost use Rattle.statement_work.specs.Works.{AskedFor, Handed, Made, Stamped};
ghost use Rattle.statement_work.specs.Acting.{Suits, met, pool_full, told};
ghost use Rattle.ro_worker.specs.Wishes.{reads_only, wish_of};
ghost use Rattle.ro_worker.specs.Kinds as kinds;
ghost use Rattle.ro_worker.specs.declared.kinds.StatementKind.TheVariants as statement_kind;
ghost use Rattle.ro_worker.specs.Serving as spec;
ghost use Rattle.ro_worker.specs.States.{Comes, serving_of, state_of};

use crate::kinds::{StatementKind, kind_of};
use crate::latching::ReaderWish;
use crate::replies::{ended, reply_to};
use crate::serving::Serving;
use crate::waiting::Waiting;
use page_image::Page;
use range_reader::Snapshot;
use rm_base::{Stamp, WantOfMemory};
use sql_database::SqlReply;
use statement_reader::AskingReader;
use statement_work::{Given, Job, Obstacle};
use std::alloc::Global;

/// Where a worker stands: it serves nothing; BEGIN or a SELECT waits for its stamp; or a SELECT is read.
#[derive(Drop)]
pub(crate) enum State {
    Idle,
    Beginning,
    Stamping(Waiting),
    Reading(Serving),
}

/// What comes of what was given.
#[derive(Drop)]
pub(crate) enum Turn {
    Works { state: State, wish: ReaderWish },
    Replies(SqlReply),
    Rests,
}

/// What was done before is given up.
pub(crate) fn give_up(_before: State) {}

/// Where nothing is wanted any more, the statement is answered.
#[tactic(auto, using(crate::proofs::TurnLaws::answers, crate::proofs::TurnLaws::evaluated))]
fn answered(alloc: Global, serving: Serving) -> Result<Turn, WantOfMemory>
    requires { wanted (serving_of serving) ≡ None }
    ensures { IfOk result (Comes (serving_of serving)) }
{
    match serving.into_read() {
        None => Err(WantOfMemory),
        Some(read) => Ok(Turn::Replies(reply_to(alloc, &read)?)),
    }
}

#[tactic(auto, using(crate::proofs::TurnLaws::wishes, crate::proofs::TurnLaws::wants_none))]
fn reached(alloc: Global, serving: Serving) -> Result<Turn, WantOfMemory>
    ensures { IfOk result (Comes (serving_of serving)) }
{
    match serving.wish() {
        None => answered(alloc, serving),
        Some(wish) => Ok(Turn::Works {
            state: State::Reading(serving),
            wish,
        }),
    }
}

/// A SELECT begins at its snapshot.
#[tactic(auto, using(crate::proofs::SelectLaws::begun_selects, crate::proofs::TurnLaws::begun))]
fn read(alloc: Global, waiting: Waiting, stamp: Stamp) -> Result<Turn, WantOfMemory>
    ensures { IfOk result (Comes (spec.reads waiting.statement waiting.own stamp)) }
{
    let snapshot = Snapshot {
        stamp,
        own: waiting.own,
    };
    let asking = AskingReader::begin(alloc, snapshot, waiting.statement)?;
    reached(alloc, Serving::new(asking))
}

fn select(alloc: Global, waiting: Waiting, snapshot: Option<Stamp>) -> Result<Turn, WantOfMemory>
    ensures { IfOk result (Comes (spec.at_stamp snapshot (spec.reads waiting.statement waiting.own))) }
{
    match snapshot {
        Some(stamp) => read(alloc, waiting, stamp),
        None => Ok(Turn::Works {
            state: State::Stamping(waiting),
            wish: ReaderWish::Stamp,
        }),
    }
}

fn begin(snapshot: Option<Stamp>) -> Turn
    ensures { Comes (spec.at_stamp snapshot spec.begun) result }
{
    match snapshot {
        Some(_) => Turn::Replies(SqlReply::Ok(0)),
        None => Turn::Works {
            state: State::Beginning,
            wish: ReaderWish::Stamp,
        },
    }
}

fn begin_unless(lasting: bool, snapshot: Option<Stamp>) -> Turn
    ensures { Comes (spec.begins lasting snapshot) result }
{
    if lasting {
        Turn::Replies(SqlReply::InTransaction)
    } else {
        begin(snapshot)
    }
}

fn refused(_job: Job) -> Turn
    ensures { Comes (spec.serves_by statement_kind.Write _job) result }
{
    Turn::Replies(SqlReply::ReadOnly)
}

fn ended_by(job: Job) -> Turn
    ensures { Comes (spec.serves_by statement_kind.End job) result }
{
    Turn::Replies(ended(job.lasting))
}

fn begun_by(job: Job) -> Turn
    ensures { Comes (spec.serves_by statement_kind.Begin job) result }
{
    begin_unless(job.lasting, job.snapshot)
}

#[tactic(auto, using(crate::proofs::TurnLaws::is_select_kind))]
fn selected(alloc: Global, job: Job) -> Result<Turn, WantOfMemory>
    requires { kinds.kind_of job.statement ≡ statement_kind.Select }
    ensures { IfOk result (Comes (spec.serves_by statement_kind.Select job)) }
{
    let Job {
        statement,
        snapshot,
        trx,
        ..
    } = job;
    let own = trx;
    select(alloc, Waiting { statement, own }, snapshot)
}

#[tactic(auto, using(crate::proofs::TurnLaws::the_kind))]
fn started_as(alloc: Global, kind: StatementKind, job: Job) -> Result<Turn, WantOfMemory>
    requires { kind ≡ kinds.kind_of job.statement }
    ensures { IfOk result (Comes (spec.serves_by kind job)) }
{
    match kind {
        StatementKind::Write => Ok(refused(job)),
        StatementKind::Select => selected(alloc, job),
        StatementKind::Begin => Ok(begun_by(job)),
        StatementKind::End => Ok(ended_by(job)),
    }
}

/// A statement is begun, in place of what was done before.
fn started(alloc: Global, _before: State, job: Job) -> Result<Turn, WantOfMemory>
    ensures { IfOk result (Comes (spec.ro_serves job)) }
{
    started_as(alloc, kind_of(&job.statement), job)
}

/// Nothing is to be undone.
fn rested(_before: State) -> Turn
    ensures { Comes (spec.ro_undoes 0) result }
{
    Turn::Rests
}

#[tactic(auto, using(crate::proofs::TurnLaws::same_work))]
fn paged(alloc: Global, state: State, page: &Page) -> Result<Turn, WantOfMemory>
    requires { AskedFor (state_of state) (Handed page.now) }
    ensures { IfOk result (Comes (after (state_of state) (Handed page.now))) }
{
    match state {
        State::Idle => unreachable!(),
        State::Beginning => unreachable!(),
        State::Stamping(_waiting) => unreachable!(),
        State::Reading(serving) => reached(alloc, serving.page(alloc, page)?),
    }
}

#[tactic(auto, using(crate::proofs::ServingLaws::no_stamp))]
fn stamped(alloc: Global, state: State, stamp: Stamp) -> Result<Turn, WantOfMemory>
    requires { AskedFor (state_of state) (Stamped stamp) }
    ensures { IfOk result (Comes (after (state_of state) (Stamped stamp))) }
{
    match state {
        State::Idle => unreachable!(),
        State::Beginning => Ok(Turn::Replies(SqlReply::Ok(0))),
        State::Stamping(waiting) => read(alloc, waiting, stamp),
        State::Reading(_serving) => unreachable!(),
    }
}

#[tactic(auto, using(crate::proofs::TurnLaws::same_work))]
fn ran(alloc: Global, state: State) -> Result<Turn, WantOfMemory>
    requires { AskedFor (state_of state) Made }
    ensures { IfOk result (Comes (after (state_of state) Made)) }
{
    match state {
        State::Idle => unreachable!(),
        State::Beginning => unreachable!(),
        State::Stamping(_waiting) => unreachable!(),
        State::Reading(serving) => reached(alloc, serving.ran()),
    }
}

/// A pool that is full ends a statement that wants a page.
#[tactic(auto, using(crate::proofs::TurnLaws::full_release, crate::proofs::TurnLaws::full_stamp))]
fn full(state: State, wish: ReaderWish, slots: u32) -> Turn
    requires { wanted (state_of state) ≡ Some (wish_of wish) }
    ensures { Comes (pool_full (state_of state) slots) result }
{
    match wish {
        ReaderWish::Fetch(_) => {
            give_up(state);
            Turn::Replies(SqlReply::PoolFull(slots))
        }
        ReaderWish::Release(page) => Turn::Works {
            state,
            wish: ReaderWish::Release(page),
        },
        ReaderWish::Stamp => Turn::Works {
            state,
            wish: ReaderWish::Stamp,
        },
    }
}

fn stopped(state: State, wish: ReaderWish, obstacle: &Obstacle) -> Turn
    requires { wanted (state_of state) ≡ Some (wish_of wish) }
    ensures { Comes (met (state_of state) obstacle.now) result }
{
    match obstacle {
        Obstacle::Busy(_) => Turn::Works { state, wish },
        Obstacle::NotYet(_) => Turn::Works { state, wish },
        Obstacle::Started(_) => Turn::Works { state, wish },
        Obstacle::DownPart => Turn::Works { state, wish },
        Obstacle::Lost => Turn::Works { state, wish },
        Obstacle::PoolFull(slots) => full(state, wish, *slots),
    }
}

impl State {
    fn wish(&self) -> Option<ReaderWish>
        ensures { option_map wish_of result ≡ wanted (state_of self.now) }
    {
        match self {
            State::Idle => None,
            State::Beginning => Some(ReaderWish::Stamp),
            State::Stamping(_) => Some(ReaderWish::Stamp),
            State::Reading(serving) => serving.wish(),
        }
    }
}

#[tactic(auto, using(crate::proofs::TurnLaws::wishes, crate::proofs::TurnLaws::some_wish))]
fn hindered(state: State, obstacle: Obstacle) -> Turn
    requires { IsSome (wanted (state_of state)) }
    ensures { Comes (met (state_of state) obstacle) result }
{
    match state.wish() {
        None => unreachable!(),
        Some(wish) => stopped(state, wish, &obstacle),
    }
}

/// What comes of what is given.
#[tactic(auto, using(crate::proofs::TurnLaws::anew_comes))]
pub(crate) fn told(alloc: Global, state: State, given: Given<'_>) -> Result<Turn, WantOfMemory>
    requires { Suits (state_of state) given }
    ensures { IfOk result (Comes (told reads_only spec.ro_serves spec.ro_undoes (state_of state) given.entry)) }
{
    match given {
        Given::Start(job) => started(alloc, state, job),
        Given::Undo(_session) => Ok(rested(state)),
        Given::Page(page) => paged(alloc, state, page),
        Given::Stamp(stamp) => stamped(alloc, state, stamp),
        Given::Ran => ran(alloc, state),
        Given::Met(obstacle) => Ok(hindered(state, obstacle)),
    }
}
