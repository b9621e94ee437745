//! The bytes of the items that plans put into pages.
ghost use Rattle.std.specs.Prelude.{◌≡◌, ◌≤◌, length, IfOk};
ghost use Rattle.rm_base.specs.Fields.{field};
ghost use Rattle.page_view.specs.Leaf.{leaf_bytes, IsLeaf};
ghost use Rattle.page_view.specs.Inner.{inner_bytes};

use page_view::LeafItem;
use rm_base::{Bytes, Items, PageId, WantOfMemory, push_u16, push_u32, push_u64};
use std::alloc::Global;

/// The bytes of a page's number.
pub(crate) fn number_bytes(alloc: Global, v: u32) -> Result<Bytes, WantOfMemory>
    ensures { IfOk result (λ bytes. bytes ≡ field 4 v) }
{
    let mut out = Items::new(alloc);
    push_u32(&mut out, v)?;
    Ok(out)
}

/// The bytes of a leaf item.
pub(crate) fn leaf_item_bytes(alloc: Global, item: &LeafItem) -> Result<Bytes, WantOfMemory>
    requires { IsLeaf item.now }
    ensures { IfOk result (λ bytes. bytes ≡ leaf_bytes item.now) }
{
    let mut out = Items::new(alloc);
    out.push(item.key.len() as u8)?;
    out.append(item.key.as_slice())?;
    out.push(u8::from(item.deleted))?;
    push_u64(&mut out, item.trx.number())?;
    push_u32(&mut out, item.older.page)?;
    push_u16(&mut out, item.older.slot)?;
    out.append(item.value.as_slice())?;
    Ok(out)
}

/// The bytes of an inner item.
pub(crate) fn inner_item_bytes(
    alloc: Global,
    key: &[u8],
    child: PageId,
) -> Result<Bytes, WantOfMemory>
    requires { length key.now ≤ 255 }
    ensures { IfOk result (λ bytes. bytes ≡ inner_bytes (record { key = key.now; child = child })) }
{
    let mut out = Items::new(alloc);
    out.push(key.len() as u8)?;
    out.append(key)?;
    push_u32(&mut out, child.number())?;
    Ok(out)
}
