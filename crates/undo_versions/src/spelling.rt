//! The bytes of undo items.
ghost use Rattle.std.specs.Prelude.{◌≡◌, ◌≤◌, ◌++◌, length, OnOk, IfOk};
ghost use Rattle.page_view.specs.Leaf.{leaf_bytes, IsLeaf};
ghost use Rattle.page_view.specs.Undo.{undo_bytes, old_bytes, IsUndo, IsOld};
ghost use Rattle.undo_versions.specs.Reading.{undone_of};

use crate::items::UndoItem;
use page_view::LeafItem;
use rm_base::{Bytes, MAX_KEY_BYTES, WantOfMemory, push_u16, push_u32, push_u64};
use std::alloc::Global;

/// Adds the bytes of a leaf item.
fn push_leaf(out: &mut Bytes, item: &LeafItem) -> Result<(), WantOfMemory>
    requires { IsLeaf item.now }
    ensures { OnOk result (out.new ≡ out.old ++ leaf_bytes item.now) }
{
    out.push(item.key.len() as u8)?;
    out.append(item.key.as_slice())?;
    out.push(u8::from(item.deleted))?;
    push_u64(out, item.trx.number())?;
    push_u32(out, item.older.page)?;
    push_u16(out, item.older.slot)?;
    out.append(item.value.as_slice())
}

/// Adds the bytes of what was there.
fn push_old(out: &mut Bytes, key: &Bytes, old: &Option<LeafItem>) -> Result<(), WantOfMemory>
    requires key { length key.now ≤ MAX_KEY_BYTES }
    requires old { IsOld key.now old.now }
    ensures { OnOk result (out.new ≡ out.old ++ old_bytes key.now old.now) }
{
    match old {
        None => {
            out.push(0)?;
            out.push(key.len() as u8)?;
            out.append(key.as_slice())
        }
        Some(item) => {
            out.push(1)?;
            push_leaf(out, item)
        }
    }
}

/// The bytes of an undo item.
pub(crate) fn item_bytes(alloc: Global, item: &UndoItem) -> Result<Bytes, WantOfMemory>
    requires { IsUndo (undone_of item.now) }
    ensures { IfOk result (λ bytes. bytes ≡ undo_bytes (undone_of item.now)) }
{
    let mut out = Bytes::new(alloc);
    push_u64(&mut out, item.trx.number())?;
    push_u32(&mut out, item.root.number())?;
    push_u32(&mut out, item.before.page)?;
    push_u16(&mut out, item.before.slot)?;
    push_old(&mut out, &item.key, &item.old)?;
    Ok(out)
}
