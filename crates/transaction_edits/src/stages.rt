//! How far a transaction's begin or end has come.
ghost use Rattle.std.specs.Prelude.{◌≡◌, ◌≤◌, ◌<◌, IfOk};
ghost use Rattle.rm_base.specs.declared.limits.TheConstants.{MAX_PAGE_ID};
ghost use Rattle.commit_stamps.specs.Fields as fields;
ghost use Rattle.commit_stamps.specs.Stamping as stamping;
ghost use Rattle.page_image.specs.Meta.{IsMeta, IsSlots};
ghost use Rattle.question_tree.specs.Questions as work;
ghost use Rattle.transaction_edits.specs.declared.numbering.Number.TheVariants as number;
ghost use Rattle.transaction_edits.specs.declared.stages.Stage.TheVariants as stage;
ghost use Rattle.transaction_edits.specs.Stages.{Stands, work_of};
ghost use Rattle.transaction_edits.specs.Wishes.{Asked, Does, Handed, Ran};
ghost use Rattle.transaction_edits.specs.Works as spec;

use crate::numbering::{Number, can_commit, number_of};
use crate::wishes::{Act, Fetch, Told};
use commit_stamps::{
    begin_plan, commit_plan, free_plan, last_stamp, next_number, slot_of, stamp_page,
};
use page_image::Page;
use rm_base::{PageId, SessionId, Stamp, WantOfMemory};
use std::alloc::Global;

/// The stages of a begin, a commit, and the freeing of a slot.
#[derive(Drop)]
pub enum Stage {
    /// The meta page is wanted, for a begin.
    BeginMeta(SessionId),
    /// The slots page is wanted.
    BeginSlots(SessionId, Page),
    /// The plan is run.
    Beginning(SessionId, Page, Page),
    /// The meta page is wanted, for a commit.
    CommitMeta(SessionId),
    /// The slots page is wanted.
    CommitSlots(SessionId, Page),
    /// The page of the transaction's stamp is wanted.
    CommitStamps(SessionId, Page, Page),
    /// The plan is run.
    Committing(SessionId, Page, Page, Page),
    /// The slots page is wanted, to free a slot.
    FreeSlots(SessionId),
    /// The plan is run.
    Freeing(SessionId, Page),
    Ended(Told),
    /// It cannot go on.
    Stopped,
}

/// Takes the slots page, for a begin.
fn numbered(session: SessionId, meta: Page, slots: Page) -> Stage
    requires meta { IsMeta meta }
    requires slots { IsSlots slots }
    ensures work { work_of result ≡ spec.numbering session meta slots }
    ensures stands { Stands result }
{
    match number_of(&meta) {
        Number::Next => Stage::Beginning(session, meta, slots),
        Number::AllGiven => Stage::Ended(Told::TrxFull),
        Number::Wrong => Stage::Stopped,
    }
}

/// Takes the slots page, for a commit.
fn slotted(session: SessionId, meta: Page, slots: Page) -> Stage
    requires meta { IsMeta meta }
    requires slots { IsSlots slots }
    ensures work { work_of result ≡ spec.commit_stamps session meta slots }
    ensures stands { Stands result }
{
    if can_commit(session, &meta, &slots) {
        Stage::CommitStamps(session, meta, slots)
    } else {
        Stage::Stopped
    }
}

/// Takes the page that is wanted.
pub(crate) fn given(stage: Stage, page: Page) -> Stage
    requires stands { Stands stage }
    requires asked { Asked (work_of stage) (Handed page) }
    ensures work { work_of result ≡ work.after (work_of stage) (Handed page) }
    ensures stands { Stands result }
{
    match stage {
        Stage::BeginMeta(session) => Stage::BeginSlots(session, page),
        Stage::BeginSlots(session, meta) => numbered(session, meta, page),
        Stage::CommitMeta(session) => Stage::CommitSlots(session, page),
        Stage::CommitSlots(session, meta) => slotted(session, meta, page),
        Stage::CommitStamps(session, meta, slots) => Stage::Committing(session, meta, slots, page),
        Stage::FreeSlots(session) => Stage::Freeing(session, page),
        Stage::Beginning(_, _, _) => Stage::Stopped,
        Stage::Committing(_, _, _, _) => Stage::Stopped,
        Stage::Freeing(_, _) => Stage::Stopped,
        Stage::Ended(_) => Stage::Stopped,
        Stage::Stopped => Stage::Stopped,
    }
}

/// Goes on when the plan was run.
pub(crate) fn run(stage: Stage) -> Stage
    requires stands { Stands stage }
    requires asked { Asked (work_of stage) Ran }
    ensures work { work_of result ≡ work.after (work_of stage) Ran }
    ensures stands { Stands result }
{
    match stage {
        Stage::Beginning(_, meta, _) => Stage::Ended(Told::Begun(next_number(&meta))),
        Stage::Committing(_, meta, _, _) => {
            Stage::Ended(Told::Committed(Stamp::new(last_stamp(&meta).number() + 1)))
        }
        Stage::Freeing(_, _) => Stage::Ended(Told::Freed),
        Stage::BeginMeta(_) => Stage::Stopped,
        Stage::BeginSlots(_, _) => Stage::Stopped,
        Stage::CommitMeta(_) => Stage::Stopped,
        Stage::CommitSlots(_, _) => Stage::Stopped,
        Stage::CommitStamps(_, _, _) => Stage::Stopped,
        Stage::FreeSlots(_) => Stage::Stopped,
        Stage::Ended(_) => Stage::Stopped,
        Stage::Stopped => Stage::Stopped,
    }
}

/// The page of the stamp of the session's transaction.
fn stamps_page(session: SessionId, slots: &Page) -> PageId
    requires slots { IsSlots slots.now }
    requires some { 0 < (fields.slot_of slots.now session).trx }
    requires there { stamping.stamp_page (fields.slot_of slots.now session).trx ≤ MAX_PAGE_ID }
    ensures { result ≡ stamping.stamp_page (fields.slot_of slots.now session).trx }
{
    let number = stamp_page(slot_of(slots, session).trx);
    match PageId::new(number as u32) {
        Some(page) => page,
        None => unreachable!(),
    }
}

/// The plan of a begin.
fn begin(
    alloc: Global,
    session: SessionId,
    meta: &Page,
    slots: &Page,
) -> Result<Option<Act>, WantOfMemory>
    requires meta { IsMeta meta.now }
    requires slots { IsSlots slots.now }
    requires next { spec.number_of meta.now ≡ number.Next }
    ensures { IfOk result (Does (work_of (stage.Beginning session meta.now slots.now))) }
{
    match begin_plan(alloc, meta, slots, session)? {
        Ok((_, plan)) => Ok(Some(Act::Run(plan))),
        Err(_) => unreachable!(),
    }
}

/// What is to be done next. None where it was told, or it cannot go on.
pub(crate) fn act_of(alloc: Global, stage: &Stage) -> Result<Option<Act>, WantOfMemory>
    requires { Stands stage.now }
    ensures { IfOk result (Does (work_of stage.now)) }
{
    match stage {
        Stage::BeginMeta(_) => Ok(Some(Act::Fetch(Fetch::Meta))),
        Stage::CommitMeta(_) => Ok(Some(Act::Fetch(Fetch::Meta))),
        Stage::BeginSlots(_, _) => Ok(Some(Act::Fetch(Fetch::Slots))),
        Stage::CommitSlots(_, _) => Ok(Some(Act::Fetch(Fetch::Slots))),
        Stage::FreeSlots(_) => Ok(Some(Act::Fetch(Fetch::Slots))),
        Stage::CommitStamps(session, _, slots) => {
            Ok(Some(Act::Fetch(Fetch::Stamps(stamps_page(*session, slots)))))
        }
        Stage::Beginning(session, meta, slots) => begin(alloc, *session, meta, slots),
        Stage::Committing(session, meta, slots, stamps) => {
            let (_, plan) = commit_plan(alloc, meta, slots, stamps, *session)?;
            Ok(Some(Act::Run(plan)))
        }
        Stage::Freeing(session, slots) => Ok(Some(Act::Run(free_plan(alloc, slots, *session)?))),
        Stage::Ended(_) => Ok(None),
        Stage::Stopped => Ok(None),
    }
}

/// What was told, once it is.
pub(crate) fn told_by(stage: &Stage) -> Option<Told>
    ensures { result ≡ work.told (work_of stage.now) }
{
    match stage {
        Stage::Ended(told) => Some(*told),
        Stage::BeginMeta(_) => None,
        Stage::BeginSlots(_, _) => None,
        Stage::Beginning(_, _, _) => None,
        Stage::CommitMeta(_) => None,
        Stage::CommitSlots(_, _) => None,
        Stage::CommitStamps(_, _, _) => None,
        Stage::Committing(_, _, _, _) => None,
        Stage::FreeSlots(_) => None,
        Stage::Freeing(_, _) => None,
        Stage::Stopped => None,
    }
}
