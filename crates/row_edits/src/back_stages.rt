//! How far an undo has come.
ghost use Rattle.std.specs.Prelude.{◌≡◌, IfOk};
ghost use Rattle.page_image.specs.Meta.{IsMeta, IsSlots};
ghost use Rattle.page_view.specs.Undo.{IsOld};
ghost use Rattle.tree_change.specs.Way.{IsWayTo};
ghost use Rattle.question_tree.specs.Questions as work;
ghost use Rattle.row_edits.specs.declared.back_stages.BackStage.TheVariants as stage;
ghost use Rattle.row_edits.specs.declared.room.Room.TheVariants as room;
ghost use Rattle.row_edits.specs.BackEdits as spec;
ghost use Rattle.row_edits.specs.BackEdits.{BackWork};
ghost use Rattle.row_edits.specs.BackGrounds.{Stands};
ghost use Rattle.row_edits.specs.BackPlans.{can_by};
ghost use Rattle.row_edits.specs.BackStages.{work_of};
ghost use Rattle.row_edits.specs.Wishes.{Asked, Does, Handed, Ran};

use crate::back_plans::{back_plan, fits, is_there, undo_at};
use crate::changes::BackGround;
use crate::room::{Room, room_of, split_plan};
use crate::row_stages::MOST_SPLITS;
use crate::stepping::{Step, Walk, fetch_of, step_on, way_from};
use crate::wishes::{Act, Fetch, Taken};
use page_image::Page;
use redo_record::Path;
use rm_base::{PageId, SessionId, UndoPtr, WantOfMemory};
use std::alloc::Global;
use undo_versions::UndoItem;

/// An undo item of a session's transaction, and how many splits its undo may still need.
#[derive(Drop)]
pub struct BackTask {
    pub session: SessionId,
    pub undo: UndoItem,
    pub splits: u32,
}

/// The stages of an undo.
#[derive(Drop)]
pub enum BackStage {
    /// The page of the undo item is wanted.
    Looking(SessionId, UndoPtr),
    /// On the way down to the leaf.
    Down(BackTask, Walk),
    /// The leaf has no room for the old item; the meta page is wanted.
    Lacking(BackTask, Path),
    /// A page on the way is split, by the meta page.
    Splitting(BackTask, Path, Page),
    /// The leaf can be changed back; the slots page is wanted.
    Ready(SessionId, UndoItem, Path),
    /// The plan is run.
    Undoing(BackGround),
    Told(Taken),
    /// It cannot go on.
    Stopped,
}

/// The undo from the root down.
#[tactic(auto, using(crate::proofs::BackStageLaws::back_stops, crate::proofs::BackStageLaws::back_begins))]
fn begin(alloc: Global, session: SessionId, undo: UndoItem, splits: u32) -> BackStage
    requires { IsOld undo.key undo.old }
    ensures work { work_of result ≡ spec.back splits session undo }
    ensures stands { Stands result }
{
    if splits == 0 {
        return BackStage::Stopped;
    }
    let walk = way_from(alloc, undo.root);
    BackStage::Down(
        BackTask {
            session,
            undo,
            splits: splits - 1,
        },
        walk,
    )
}

/// Takes the page of the undo item.
fn looked(
    alloc: Global,
    session: SessionId,
    at: UndoPtr,
    page: &Page,
) -> Result<BackStage, WantOfMemory>
    ensures work { IfOk result (λ next. work_of next ≡ spec.undo_read session (spec.older page.now at)) }
    ensures stands { IfOk result Stands }
{
    match undo_at(alloc, page, at)? {
        None => Ok(BackStage::Stopped),
        Some(undo) => Ok(begin(alloc, session, undo, MOST_SPLITS)),
    }
}

/// Whether the leaf can be changed back.
#[tactic(auto, using(crate::proofs::BackLaws::way_of_old, crate::proofs::BackLaws::leaf_of_old))]
fn can_be(alloc: Global, undo: &UndoItem, path: &Path) -> Result<bool, WantOfMemory>
    requires old { IsOld undo.now.key undo.now.old }
    requires way { IsWayTo undo.now.key path.now }
    ensures { IfOk result (λ can. can ≡ can_by undo.now.old path.now undo.now.key) }
{
    match &undo.old {
        None => Ok(is_there(path, &undo.key)),
        Some(old) => fits(alloc, path, old),
    }
}

/// At the leaf.
fn landed(alloc: Global, task: BackTask, path: Path) -> Result<BackStage, WantOfMemory>
    requires old { IsOld task.undo.key task.undo.old }
    requires way { IsWayTo task.undo.key path }
    ensures work { IfOk result (λ next. work_of next ≡ spec.landed (spec.back task.splits task.session task.undo) task.session task.undo path) }
    ensures stands { IfOk result Stands }
{
    if !can_be(alloc, &task.undo, &path)? {
        return Ok(BackStage::Lacking(task, path));
    }
    let BackTask { session, undo, .. } = task;
    Ok(BackStage::Ready(session, undo, path))
}

/// Takes a page of the tree.
#[tactic(auto, using(crate::proofs::WayLaws::asked_left, crate::proofs::WayLaws::asked_readable, crate::proofs::WayLaws::lands, crate::proofs::WayLaws::sinks, crate::proofs::WayLaws::landed))]
fn down(alloc: Global, task: BackTask, walk: Walk, page: Page) -> Result<BackStage, WantOfMemory>
    requires old { IsOld task.undo.key task.undo.old }
    requires asked { Asked (work_of (stage.Down task walk)) (Handed page) }
    ensures work { IfOk result (λ next. work_of next ≡ work.after (work_of (stage.Down task walk)) (Handed page)) }
    ensures stands { IfOk result Stands }
{
    match step_on(walk, task.undo.key.as_slice(), page)? {
        Step::Leaf(path) => landed(alloc, task, path),
        Step::Down(walk) => Ok(BackStage::Down(task, walk)),
    }
}

/// The room on the way of the old item.
#[tactic(auto, using(crate::proofs::BackLaws::way_of_old, crate::proofs::BackLaws::leaf_of_old))]
fn room_back(alloc: Global, undo: &UndoItem, path: &Path, meta: &Page) -> Result<Room, WantOfMemory>
    requires old { IsOld undo.now.key undo.now.old }
    requires way { IsWayTo undo.now.key path.now }
    requires meta { IsMeta meta.now }
    ensures { IfOk result (λ room. room ≡ spec.room_back undo.now.old path.now meta.now) }
{
    match &undo.old {
        None => Ok(Room::Enough),
        Some(old) => room_of(alloc, path, meta, old),
    }
}

/// Takes the meta page at a leaf that lacks room.
#[tactic(auto, using(crate::proofs::BackStageLaws::lacks_enough, crate::proofs::BackStageLaws::lacks_split, crate::proofs::BackStageLaws::lacks_full, crate::proofs::BackStageLaws::lacking_meta))]
fn lacking(alloc: Global, task: BackTask, path: Path, meta: Page) -> Result<BackStage, WantOfMemory>
    requires old { IsOld task.undo.key task.undo.old }
    requires way { IsWayTo task.undo.key path }
    requires asked { Asked (work_of (stage.Lacking task path)) (Handed meta) }
    ensures work { IfOk result (λ next. work_of next ≡ work.after (work_of (stage.Lacking task path)) (Handed meta)) }
    ensures stands { IfOk result Stands }
{
    match room_back(alloc, &task.undo, &path, &meta)? {
        Room::Enough => Ok(BackStage::Stopped),
        Room::Split => Ok(BackStage::Splitting(task, path, meta)),
        Room::Full => Ok(BackStage::Told(Taken::Again)),
    }
}

/// Takes the page that is wanted.
#[tactic(auto, using(crate::proofs::BackStageLaws::look_given, crate::proofs::BackStageLaws::split_not_given))]
pub(crate) fn given(alloc: Global, stage: BackStage, page: Page) -> Result<BackStage, WantOfMemory>
    requires stands { Stands stage }
    requires asked { Asked (work_of stage) (Handed page) }
    ensures work { IfOk result (λ next. work_of next ≡ work.after (work_of stage) (Handed page)) }
    ensures stands { IfOk result Stands }
{
    match stage {
        BackStage::Looking(session, at) => looked(alloc, session, at, &page),
        BackStage::Down(task, walk) => down(alloc, task, walk, page),
        BackStage::Lacking(task, path) => lacking(alloc, task, path, page),
        BackStage::Ready(session, undo, path) => Ok(BackStage::Undoing(BackGround {
            session,
            undo,
            path,
            slots: page,
        })),
        BackStage::Splitting(_, _, _) => Ok(BackStage::Stopped),
        BackStage::Undoing(_) => Ok(BackStage::Stopped),
        BackStage::Told(_) => Ok(BackStage::Stopped),
        BackStage::Stopped => Ok(BackStage::Stopped),
    }
}

/// Goes on when the plan was run.
#[tactic(auto, using(crate::proofs::WayLaws::not_run, crate::proofs::BackStageLaws::look_not_run, crate::proofs::BackStageLaws::lacking_not_run, crate::proofs::BackStageLaws::split_ran))]
pub(crate) fn run(alloc: Global, stage: BackStage) -> BackStage
    requires stands { Stands stage }
    requires asked { Asked (work_of stage) Ran }
    ensures work { work_of result ≡ work.after (work_of stage) Ran }
    ensures stands { Stands result }
{
    match stage {
        BackStage::Splitting(task, _, _) => {
            let BackTask {
                session,
                undo,
                splits,
            } = task;
            begin(alloc, session, undo, splits)
        }
        BackStage::Undoing(basis) => BackStage::Told(Taken::Back(basis.undo.before)),
        BackStage::Looking(_, _) => BackStage::Stopped,
        BackStage::Down(_, _) => BackStage::Stopped,
        BackStage::Lacking(_, _) => BackStage::Stopped,
        BackStage::Ready(_, _, _) => BackStage::Stopped,
        BackStage::Told(_) => BackStage::Stopped,
        BackStage::Stopped => BackStage::Stopped,
    }
}

/// The page of the undo item, where there is such a page.
fn look_at(at: &UndoPtr) -> Option<Act>
    ensures { result ≡ spec.look_fetch at.now }
{
    match PageId::new(at.page) {
        None => None,
        Some(page) => Some(Act::Fetch(Fetch::Undo(page))),
    }
}

/// The meta page, where an old item is put back.
fn meta_for(undo: &UndoItem) -> Option<Act>
    ensures { (again : BackWork) (path : spec.Path) → Does (spec.lacking again undo.now.old path) result }
{
    match &undo.old {
        None => None,
        Some(_) => Some(Act::Fetch(Fetch::Meta)),
    }
}

/// The split that the old item needs.
#[tactic(auto, using(crate::proofs::BackLaws::way_of_old, crate::proofs::BackLaws::leaf_of_old))]
fn split_for(
    alloc: Global,
    undo: &UndoItem,
    path: &Path,
    meta: &Page,
) -> Result<Option<Act>, WantOfMemory>
    requires old { IsOld undo.now.key undo.now.old }
    requires way { IsWayTo undo.now.key path.now }
    requires meta { IsMeta meta.now }
    requires split { spec.room_back undo.now.old path.now meta.now ≡ room.Split }
    ensures { (again : BackWork) → IfOk result (Does (spec.splitting again undo.now.old path.now meta.now)) }
{
    match &undo.old {
        None => Ok(None),
        Some(old) => Ok(Some(Act::Run(split_plan(alloc, path, meta, old)?))),
    }
}

/// What is to be done next. None where it was told, or it cannot go on.
#[tactic(auto, using(crate::proofs::WayLaws::way_does, crate::proofs::BackStageLaws::look_does))]
pub(crate) fn act_of(alloc: Global, stage: &BackStage) -> Result<Option<Act>, WantOfMemory>
    requires { Stands stage.now }
    ensures { IfOk result (Does (work_of stage.now)) }
{
    match stage {
        BackStage::Looking(_, at) => Ok(look_at(at)),
        BackStage::Down(_, walk) => Ok(fetch_of(walk)),
        BackStage::Lacking(task, _) => Ok(meta_for(&task.undo)),
        BackStage::Splitting(task, path, meta) => split_for(alloc, &task.undo, path, meta),
        BackStage::Ready(_, _, _) => Ok(Some(Act::Fetch(Fetch::Slots))),
        BackStage::Undoing(basis) => Ok(Some(Act::Run(back_plan(alloc, basis)?))),
        BackStage::Told(_) => Ok(None),
        BackStage::Stopped => Ok(None),
    }
}

/// What was told, once it is.
#[tactic(auto, using(crate::proofs::WayLaws::untold, crate::proofs::BackStageLaws::look_untold, crate::proofs::BackStageLaws::lacking_untold, crate::proofs::BackStageLaws::splitting_untold))]
pub(crate) fn told_by(stage: &BackStage) -> Option<Taken>
    ensures { result ≡ work.told (work_of stage.now) }
{
    match stage {
        BackStage::Told(taken) => Some(*taken),
        BackStage::Looking(_, _) => None,
        BackStage::Down(_, _) => None,
        BackStage::Lacking(_, _) => None,
        BackStage::Splitting(_, _, _) => None,
        BackStage::Ready(_, _, _) => None,
        BackStage::Undoing(_) => None,
        BackStage::Stopped => None,
    }
}
