//! What is changed, and the pages that a change stands on.

use page_image::Page;
use page_view::LeafItem;
use redo_record::Path;
use rm_base::{PageId, SessionId};
use undo_versions::UndoItem;

/// A change of a row: the session, the root of the tree, and the item that comes to stand for its key,
/// but for its pointer to the version before. A row of the catalog may begin a table: `begins` is then
/// the place in the item's value where the number of the table's root comes to stand.
#[derive(Drop)]
pub struct RowChange {
    pub session: SessionId,
    pub root: PageId,
    pub item: LeafItem,
    pub begins: Option<u16>,
}

/// What the plan of a row's change stands on: the change, the way to its leaf, the meta page, the undo
/// page in use, and the slots page.
#[derive(Drop)]
pub struct RowGround {
    pub change: RowChange,
    pub path: Path,
    pub meta: Page,
    pub undo: Page,
    pub slots: Page,
}

/// What the plan that undoes a change stands on: the session, the undo item, the way to its leaf, and the
/// slots page.
#[derive(Drop)]
pub struct BackGround {
    pub session: SessionId,
    pub undo: UndoItem,
    pub path: Path,
    pub slots: Page,
}
