//! What a change replaces.
ghost use Rattle.std.specs.Prelude.{◌≡◌, IfOk};

use page_view::LeafItem;
use rm_base::{Bytes, Duplicate, PageId, TrxId, UndoPtr, WantOfMemory};
use std::alloc::Global;

/// A change that can be undone: its transaction, the root of the tree, the transaction's change before
/// it, the key, and the item that was replaced. Without an old item the key was not there.
#[derive(Debug, Drop)]
pub struct UndoItem {
    pub trx: TrxId,
    pub root: PageId,
    pub before: UndoPtr,
    pub key: Bytes,
    pub old: Option<LeafItem>,
}

impl Duplicate for UndoItem {
    fn copy(&self, alloc: Global) -> Result<UndoItem, WantOfMemory> {
        Ok(UndoItem {
            trx: self.trx,
            root: self.root,
            before: self.before,
            key: self.key.copy(alloc)?,
            old: copy_old(alloc, &self.old)?,
        })
    }
}

fn copy_old(alloc: Global, old: &Option<LeafItem>) -> Result<Option<LeafItem>, WantOfMemory>
    ensures { IfOk result (λ copied. copied ≡ old.now) }
{
    match old {
        None => Ok(None),
        Some(item) => Ok(Some(item.copy(alloc)?)),
    }
}
