ghost use Rattle.std.specs.Prelude.{◌≡◌, length, IsTrue, ◌↔◌};
ghost use Rattle.page_view.specs.Undo.{undo_bytes, IsUndo, HoldsUndo, HoldsOld, HoldsKey, IsUndoOrNone, OneUndo};
ghost use Rattle.page_view.specs.Views.{IsPartOrNone, IsViewOf};

use crate::leaf::{LeafRef, holds_leaf};
use page_image::{Kind, Page};
use rm_base::{MAX_KEY_BYTES, MAX_PAGE_ID, PageId, TrxId, UndoPtr, get_u16, get_u32, get_u64};
use std::marker::Model;

/// The bytes of an undo item before its old item.
const HEAD: usize = 19;

/// An undo item where it stands in its page.
#[derive(Debug, Drop)]
pub struct UndoRef<'a> {
    item: &'a [u8],
}

impl<'a> Model for UndoRef<'a> {
    ghost use Rattle.page_view.specs.Undo.{Undone, undo_of, HoldsUndo};

    ghost Value = { Undone };

    ghost view = { λ undo. undo_of undo.item.now };

    ghost invariant = { λ undo. HoldsUndo undo.item.now };
}

fn holds_undo(item: &[u8]) -> bool
    ensures { IsTrue result ↔ HoldsUndo item.now }
{
    item.len() > HEAD && get_u32(item, 8) <= MAX_PAGE_ID && holds_old(item[18], &item[HEAD..])
}

fn holds_old(flag: u8, old: &[u8]) -> bool
    ensures { IsTrue result ↔ HoldsOld flag old.now }
{
    match flag {
        0 => holds_key(old),
        1 => holds_leaf(old),
        _ => false,
    }
}

fn holds_key(old: &[u8]) -> bool
    ensures { IsTrue result ↔ HoldsKey old.now }
{
    match old {
        [] => false,
        [length, key @ ..] => key.len() == usize::from(*length) && key.len() <= MAX_KEY_BYTES,
    }
}

impl<'a> UndoRef<'a> {
    /// The undo item that the bytes spell. None exactly where they spell none.
    pub fn read(item: &'a [u8]) -> Option<UndoRef<'a>>
        ensures { IsUndoOrNone item.now result }
    {
        if holds_undo(item) {
            Some(UndoRef { item })
        } else {
            None
        }
    }

    pub fn trx(&self) -> TrxId
        ensures { result ≡ self.now.trx }
    {
        TrxId::new(get_u64(self.item, 0))
    }

    /// The root of the tree whose item was changed.
    pub fn root(&self) -> PageId
        ensures { result ≡ self.now.root }
    {
        PageId::new(get_u32(self.item, 8)).unwrap()
    }

    /// The transaction's undo item before this one.
    pub fn before(&self) -> UndoPtr
        ensures { result ≡ self.now.before }
    {
        UndoPtr {
            page: get_u32(self.item, 12),
            slot: get_u16(self.item, 16),
        }
    }

    pub fn key(&self) -> &'a [u8]
        ensures { result.now ≡ self.now.key }
    {
        let item = self.item;
        &item[20..20 + usize::from(item[HEAD])]
    }

    /// The item that was replaced. None exactly where the key was not there.
    pub fn old(&self) -> Option<LeafRef<'a>>
        ensures { result ≡ self.now.old }
    {
        let item = self.item;
        if item[18] == 1 {
            return Some(LeafRef::holding(&item[HEAD..]));
        }
        None
    }
}

/// The items of an undo page.
#[derive(Debug, Drop)]
pub struct UndoView<'a> {
    page: &'a Page,
}

impl<'a> Model for UndoView<'a> {
    ghost use Rattle.page_image.specs.Image.{Image};

    ghost Value = { Image };

    ghost view = { λ undo. undo.page.now };
}

impl<'a> UndoView<'a> {
    /// None exactly where the page is no undo page.
    pub fn over(page: &'a Page) -> Option<UndoView<'a>>
        ensures { IsViewOf Kind.Undo page.now result }
    {
        if page.kind() != Kind::Undo {
            return None;
        }
        Some(UndoView { page })
    }

    pub fn count(&self) -> usize
        ensures { result ≡ length self.now.items }
    {
        usize::from(self.page.slots())
    }

    /// The undo item at place i. None exactly where there is no item, or its bytes spell no undo item
    /// with a root below 32,768.
    pub fn item(&self, i: usize) -> Option<UndoRef<'a>>
        ensures { IsPartOrNone IsUndo undo_bytes self.now.items i result }
    {
        let page = self.page;
        match page.item(i) {
            None => None,
            Some(item) => UndoRef::read(item),
        }
    }
}

/// Bytes spell one undo item alone. It does nothing when it is run.
#[tactic(auto, using(crate::proofs::UndoLaws::one_undo))]
pub fn undo_laws()
    ensures { OneUndo }
{}
