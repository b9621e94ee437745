//! How far a row's change has come.
ghost use Rattle.std.specs.Prelude.{◌≡◌, ◌<◌, IfOk};
ghost use Rattle.row_edits.specs.RowPlans.{IsChange};
ghost use Rattle.tree_change.specs.Way.{IsWayTo};
ghost use Rattle.page_image.specs.Meta.{IsMeta, IsSlots};
ghost use Rattle.page_image.specs.declared.kind.Kind.TheVariants as kind;
ghost use Rattle.question_tree.specs.Questions as work;
ghost use Rattle.row_edits.specs.declared.row_stages.RowStage.TheVariants as stage;
ghost use Rattle.row_edits.specs.RowEdits as spec;
ghost use Rattle.row_edits.specs.RowGrounds.{IsRoomy, Stands};
ghost use Rattle.row_edits.specs.RowStages.{work_of};
ghost use Rattle.row_edits.specs.Wishes.{Asked, Does, Handed, Ran};

use crate::changes::{RowChange, RowGround};
use crate::room::{Room, room_of, split_plan};
use crate::row_plans::{has_pages, row_plan};
use crate::stepping::{Step, Walk, fetch_of, step_on, way_from};
use crate::wishes::{Act, Edited, Fetch};
use commit_stamps::undo_page;
use page_image::Page;
use redo_record::Path;
use rm_base::{PageId, WantOfMemory};
use std::alloc::Global;

/// How many splits a change needs at most: each makes a page.
pub const MOST_SPLITS: u32 = 32_768;

/// A row's change, and how many splits it may still need.
#[derive(Drop)]
pub struct RowTask {
    pub change: RowChange,
    pub splits: u32,
}

/// The stages of a row's change.
#[derive(Drop)]
pub enum RowStage {
    /// On the way down to its leaf.
    Down(RowTask, Walk),
    /// At its leaf; the meta page is wanted.
    Arrived(RowTask, Path),
    /// A page on the way is split, by the meta page.
    Splitting(RowTask, Path, Page),
    /// There is room; the undo page that the meta page names is wanted.
    Undo(RowChange, Path, Page),
    /// The slots page is wanted.
    Slots(RowChange, Path, Page, Page),
    /// Its plan is run.
    Changing(RowGround),
    Told(Edited),
    /// It cannot go on.
    Stopped,
}

/// The change from the root down.
#[tactic(auto, using(crate::proofs::StageLaws::row_stops, crate::proofs::StageLaws::row_begins))]
pub(crate) fn begin(alloc: Global, splits: u32, change: RowChange) -> RowStage
    requires { IsChange change }
    ensures work { work_of result ≡ spec.row splits change }
    ensures stands { Stands result }
{
    if splits == 0 {
        return RowStage::Stopped;
    }
    let walk = way_from(alloc, change.root);
    RowStage::Down(
        RowTask {
            change,
            splits: splits - 1,
        },
        walk,
    )
}

/// Takes a page of the tree.
#[tactic(auto, using(crate::proofs::WayLaws::asked_left, crate::proofs::WayLaws::asked_readable, crate::proofs::WayLaws::lands, crate::proofs::WayLaws::sinks, crate::proofs::WayLaws::landed))]
fn down(task: RowTask, walk: Walk, page: Page) -> Result<RowStage, WantOfMemory>
    requires change { IsChange task.change }
    requires asked { Asked (work_of (stage.Down task walk)) (Handed page) }
    ensures work { IfOk result (λ next. work_of next ≡ work.after (work_of (stage.Down task walk)) (Handed page)) }
    ensures stands { IfOk result Stands }
{
    match step_on(walk, task.change.item.key.as_slice(), page)? {
        Step::Leaf(path) => Ok(RowStage::Arrived(task, path)),
        Step::Down(walk) => Ok(RowStage::Down(task, walk)),
    }
}

/// Takes the meta page at the leaf.
fn at_leaf(alloc: Global, task: RowTask, path: Path, meta: Page) -> Result<RowStage, WantOfMemory>
    requires change { IsChange task.change }
    requires way { IsWayTo task.change.item.key path }
    requires meta { IsMeta meta }
    ensures work { IfOk result (λ next. work_of next ≡ work.after (work_of (stage.Arrived task path)) (Handed meta)) }
    ensures stands { IfOk result Stands }
{
    match room_of(alloc, &path, &meta, &task.change.item)? {
        Room::Enough => {
            let RowTask { change, .. } = task;
            Ok(RowStage::Undo(change, path, meta))
        }
        Room::Split => Ok(RowStage::Splitting(task, path, meta)),
        Room::Full => Ok(RowStage::Told(Edited::SpaceFull)),
    }
}

/// Takes the slots page.
fn grounded(alloc: Global, basis: RowGround) -> Result<RowStage, WantOfMemory>
    requires roomy { IsRoomy basis.change basis.path basis.meta }
    requires undo { basis.undo.kind ≡ kind.Undo }
    requires slots { IsSlots basis.slots }
    ensures work { IfOk result (λ next. work_of next ≡ spec.with_slots basis) }
    ensures stands { IfOk result Stands }
{
    if has_pages(alloc, &basis)? {
        return Ok(RowStage::Changing(basis));
    }
    Ok(RowStage::Told(Edited::SpaceFull))
}

/// Takes the page that is wanted.
#[tactic(auto, using(crate::proofs::StageLaws::undo_given, crate::proofs::StageLaws::undo_is))]
pub(crate) fn given(alloc: Global, stage: RowStage, page: Page) -> Result<RowStage, WantOfMemory>
    requires stands { Stands stage }
    requires asked { Asked (work_of stage) (Handed page) }
    ensures work { IfOk result (λ next. work_of next ≡ work.after (work_of stage) (Handed page)) }
    ensures stands { IfOk result Stands }
{
    match stage {
        RowStage::Down(task, walk) => down(task, walk, page),
        RowStage::Arrived(task, path) => at_leaf(alloc, task, path, page),
        RowStage::Undo(change, path, meta) => Ok(RowStage::Slots(change, path, meta, page)),
        RowStage::Slots(change, path, meta, undo) => grounded(
            alloc,
            RowGround {
                change,
                path,
                meta,
                undo,
                slots: page,
            },
        ),
        RowStage::Splitting(_, _, _) => Ok(RowStage::Stopped),
        RowStage::Changing(_) => Ok(RowStage::Stopped),
        RowStage::Told(_) => Ok(RowStage::Stopped),
        RowStage::Stopped => Ok(RowStage::Stopped),
    }
}

/// Goes on when the plan was run.
#[tactic(auto, using(crate::proofs::WayLaws::not_run, crate::proofs::StageLaws::undo_not_run))]
pub(crate) fn run(alloc: Global, stage: RowStage) -> RowStage
    requires stands { Stands stage }
    requires asked { Asked (work_of stage) Ran }
    ensures work { work_of result ≡ work.after (work_of stage) Ran }
    ensures stands { Stands result }
{
    match stage {
        RowStage::Splitting(task, _, _) => {
            let RowTask { change, splits } = task;
            begin(alloc, splits, change)
        }
        RowStage::Changing(_) => RowStage::Told(Edited::Made),
        RowStage::Down(_, _) => RowStage::Stopped,
        RowStage::Arrived(_, _) => RowStage::Stopped,
        RowStage::Undo(_, _, _) => RowStage::Stopped,
        RowStage::Slots(_, _, _, _) => RowStage::Stopped,
        RowStage::Told(_) => RowStage::Stopped,
        RowStage::Stopped => RowStage::Stopped,
    }
}

/// The undo page in use, where the meta page names a page.
fn undo_fetch(meta: &Page) -> Option<Act>
    requires { IsMeta meta.now }
    ensures { result ≡ spec.undo_fetch meta.now }
{
    match PageId::new(undo_page(meta)) {
        None => None,
        Some(page) => Some(Act::Fetch(Fetch::Undo(page))),
    }
}

/// What is to be done next. None where it was told, or it cannot go on.
#[tactic(auto, using(crate::proofs::WayLaws::way_does, crate::proofs::StageLaws::undo_does))]
pub(crate) fn act_of(alloc: Global, stage: &RowStage) -> Result<Option<Act>, WantOfMemory>
    requires { Stands stage.now }
    ensures { IfOk result (Does (work_of stage.now)) }
{
    match stage {
        RowStage::Down(_, walk) => Ok(fetch_of(walk)),
        RowStage::Arrived(_, _) => Ok(Some(Act::Fetch(Fetch::Meta))),
        RowStage::Splitting(task, path, meta) => {
            let plan = split_plan(alloc, path, meta, &task.change.item)?;
            Ok(Some(Act::Run(plan)))
        }
        RowStage::Undo(_, _, meta) => Ok(undo_fetch(meta)),
        RowStage::Slots(_, _, _, _) => Ok(Some(Act::Fetch(Fetch::Slots))),
        RowStage::Changing(basis) => Ok(Some(Act::Run(row_plan(alloc, basis)?))),
        RowStage::Told(_) => Ok(None),
        RowStage::Stopped => Ok(None),
    }
}

/// What was told, once it is.
#[tactic(auto, using(crate::proofs::WayLaws::untold, crate::proofs::StageLaws::undo_untold))]
pub(crate) fn told_by(stage: &RowStage) -> Option<Edited>
    ensures { result ≡ work.told (work_of stage.now) }
{
    match stage {
        RowStage::Told(edited) => Some(*edited),
        RowStage::Down(_, _) => None,
        RowStage::Arrived(_, _) => None,
        RowStage::Splitting(_, _, _) => None,
        RowStage::Undo(_, _, _) => None,
        RowStage::Slots(_, _, _, _) => None,
        RowStage::Changing(_) => None,
        RowStage::Stopped => None,
    }
}
