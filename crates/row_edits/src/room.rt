//! Whether the way of a change has room for it.
ghost use Rattle.std.specs.Prelude.{◌≡◌, IfOk};
ghost use Rattle.page_image.specs.Meta.{IsMeta};
ghost use Rattle.page_view.specs.Leaf.{IsLeaf};
ghost use Rattle.tree_change.specs.Way.{IsWayTo};
ghost use Rattle.row_edits.specs.Rooms as spec;
ghost use Rattle.row_edits.specs.Rooms.{IsSplitFor};

use page_image::Page;
use page_view::LeafItem;
use redo_record::{Path, Plan, TreeNo};
use rm_base::WantOfMemory;
use std::alloc::Global;
use tree_change::plan_room;

/// Whether each page on the way of a change has room for it; else whether the first one that has not can
/// be split.
#[derive(Clone, Copy, Debug, PartialEq, Eq)]
pub enum Room {
    Enough,
    Split,
    Full,
}

fn split_or_full(answer: Result<Plan, TreeNo>) -> Room
    ensures { result ≡ spec.by_answer answer }
{
    match answer {
        Ok(_) => Room::Split,
        Err(_) => Room::Full,
    }
}

/// The room on the way of the item's change.
#[tactic(auto, using(crate::proofs::RoomLaws::enough, crate::proofs::RoomLaws::split_or_full))]
pub(crate) fn room_of(
    alloc: Global,
    path: &Path,
    meta: &Page,
    item: &LeafItem,
) -> Result<Room, WantOfMemory>
    requires way { IsWayTo item.now.key path.now }
    requires item { IsLeaf item.now }
    requires meta { IsMeta meta.now }
    ensures { IfOk result (λ room. room ≡ spec.room_of item.now path.now meta.now) }
{
    match plan_room(alloc, path, meta, item)? {
        None => Ok(Room::Enough),
        Some(answer) => Ok(split_or_full(answer)),
    }
}

/// The plan of the split that the item's change needs.
#[tactic(auto, using(crate::proofs::RoomLaws::not_enough, crate::proofs::RoomLaws::has_space))]
pub(crate) fn split_plan(
    alloc: Global,
    path: &Path,
    meta: &Page,
    item: &LeafItem,
) -> Result<Plan, WantOfMemory>
    requires way { IsWayTo item.now.key path.now }
    requires item { IsLeaf item.now }
    requires meta { IsMeta meta.now }
    requires split { spec.room_of item.now path.now meta.now ≡ Room.Split }
    ensures { IfOk result (IsSplitFor item.now path.now meta.now) }
{
    let planned = plan_room(alloc, path, meta, item)?;
    Ok(planned.unwrap().unwrap())
}
