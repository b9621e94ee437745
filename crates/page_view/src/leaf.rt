ghost use Rattle.std.specs.Prelude.{◌≡◌, length, IfOk, IsTrue, ◌↔◌, MatchOption};
ghost use Rattle.page_view.specs.Leaf.{leaf_bytes, leaf_of, IsLeaf, HoldsLeaf, IsLeafOrNone, OneLeaf};

use rm_base::{
    Bytes, Duplicate, MAX_KEY_BYTES, MAX_RECORD_BYTES, RECORD_OVERHEAD_BYTES, TrxId, UndoPtr,
    WantOfMemory, get_u16, get_u32, get_u64,
};
use std::alloc::Global;
use std::marker::Model;

/// A version of a row as a leaf keeps it: its key, whether it is deleted, the transaction that wrote it,
/// where the version before it stands, and the bytes of its value.
#[derive(Debug, Drop)]
pub struct LeafItem {
    pub key: Bytes,
    pub deleted: bool,
    pub trx: TrxId,
    pub older: UndoPtr,
    pub value: Bytes,
}

impl Duplicate for LeafItem {
    fn copy(&self, alloc: Global) -> Result<LeafItem, WantOfMemory> {
        Ok(LeafItem {
            key: self.key.copy(alloc)?,
            deleted: self.deleted,
            trx: self.trx,
            older: self.older,
            value: self.value.copy(alloc)?,
        })
    }
}

/// A leaf item where it stands in its page.
#[derive(Debug, Drop)]
pub struct LeafRef<'a> {
    item: &'a [u8],
}

impl<'a> Model for LeafRef<'a> {
    ghost use Rattle.page_view.specs.Leaf.{leaf_of, HoldsLeaf};
    ghost use Rattle.page_view.specs.declared.leaf.LeafItem.{LeafItem};

    ghost Value = { LeafItem };

    ghost view = { λ leaf. leaf_of leaf.item.now };

    ghost invariant = { λ leaf. HoldsLeaf leaf.item.now };
}

/// Whether the bytes spell a leaf item.
pub(crate) fn holds_leaf(item: &[u8]) -> bool
    ensures { IsTrue result ↔ HoldsLeaf item.now }
{
    let Some(length) = item.first() else {
        return false;
    };
    let key = usize::from(*length);
    key <= MAX_KEY_BYTES
        && RECORD_OVERHEAD_BYTES + key <= item.len()
        && item.len() <= MAX_RECORD_BYTES
        && item[1 + key] <= 1
}

impl<'a> LeafRef<'a> {
    /// The leaf item that the bytes spell. None exactly where they spell none.
    pub fn read(item: &'a [u8]) -> Option<LeafRef<'a>>
        ensures { IsLeafOrNone item.now result }
    {
        if holds_leaf(item) {
            Some(LeafRef { item })
        } else {
            None
        }
    }

    /// The leaf item of bytes that are known to spell one.
    pub(crate) fn holding(item: &'a [u8]) -> LeafRef<'a>
        requires { HoldsLeaf item.now }
        ensures { result ≡ leaf_of item.now }
    {
        LeafRef { item }
    }

    pub fn key(&self) -> &'a [u8]
        ensures { result.now ≡ self.now.key }
    {
        let item = self.item;
        &item[1..1 + usize::from(item[0])]
    }

    pub fn value(&self) -> &'a [u8]
        ensures { result.now ≡ self.now.value }
    {
        let item = self.item;
        &item[RECORD_OVERHEAD_BYTES + usize::from(item[0])..]
    }

    pub fn deleted(&self) -> bool
        ensures { result ≡ self.now.deleted }
    {
        self.item[1 + usize::from(self.item[0])] == 1
    }

    pub fn trx(&self) -> TrxId
        ensures { result ≡ self.now.trx }
    {
        TrxId::new(get_u64(self.item, 2 + usize::from(self.item[0])))
    }

    pub fn older(&self) -> UndoPtr
        ensures { result ≡ self.now.older }
    {
        let key = usize::from(self.item[0]);
        UndoPtr {
            page: get_u32(self.item, 10 + key),
            slot: get_u16(self.item, 14 + key),
        }
    }

    /// The item in memory of its own.
    pub fn to_item(&self, alloc: Global) -> Result<LeafItem, WantOfMemory>
        ensures { IfOk result (λ item. item ≡ self.now) }
    {
        let mut key = Bytes::new(alloc);
        key.append(self.key())?;
        let mut value = Bytes::new(alloc);
        value.append(self.value())?;
        Ok(LeafItem {
            key,
            deleted: self.deleted(),
            trx: self.trx(),
            older: self.older(),
            value,
        })
    }
}

/// Bytes spell one leaf item alone. It does nothing when it is run.
#[tactic(auto, using(crate::proofs::LeafLaws::one_leaf))]
pub fn leaf_laws()
    ensures { OneLeaf }
{}
