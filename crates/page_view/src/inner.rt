ghost use Rattle.std.specs.Prelude.{◌≡◌, ◌<◌, ◌≤◌, length, slice_get, [], IsTrue, IsSome, IsNone, IfSome, ◌↔◌, Some};
ghost use Rattle.page_view.specs.Inner.{inner_bytes, IsInner, HoldsInner, IsInnerOrNone, OneInner};
ghost use Rattle.page_view.specs.Keys.{Ascend, keys_of, IsChildFor};
ghost use Rattle.page_view.specs.Views.{IsPartOrNone, IsViewOf};

use crate::search;
use page_image::{Kind, Page};
use rm_base::{MAX_PAGE_ID, PageId, get_u32};
use std::marker::Model;

/// An inner item where it stands in its page.
#[derive(Debug, Drop)]
pub struct InnerRef<'a> {
    item: &'a [u8],
}

impl<'a> Model for InnerRef<'a> {
    ghost use Rattle.page_view.specs.Inner.{InnerItem, inner_of, HoldsInner};

    ghost Value = { InnerItem };

    ghost view = { λ inner. inner_of inner.item.now };

    ghost invariant = { λ inner. HoldsInner inner.item.now };
}

fn holds_inner(item: &[u8]) -> bool
    ensures { IsTrue result ↔ HoldsInner item.now }
{
    let Some(length) = item.first() else {
        return false;
    };
    let key = usize::from(*length);
    item.len() == 5 + key && get_u32(item, 1 + key) <= MAX_PAGE_ID
}

impl<'a> InnerRef<'a> {
    /// The inner item that the bytes spell. None exactly where they spell none.
    pub fn read(item: &'a [u8]) -> Option<InnerRef<'a>>
        ensures { IsInnerOrNone item.now result }
    {
        if holds_inner(item) {
            Some(InnerRef { item })
        } else {
            None
        }
    }

    pub fn key(&self) -> &'a [u8]
        ensures { result.now ≡ self.now.key }
    {
        let item = self.item;
        &item[1..1 + usize::from(item[0])]
    }

    pub fn child(&self) -> PageId
        ensures { result ≡ self.now.child }
    {
        PageId::new(get_u32(self.item, 1 + usize::from(self.item[0]))).unwrap()
    }
}

/// The items of an inner page.
#[derive(Debug, Drop)]
pub struct InnerView<'a> {
    page: &'a Page,
}

impl<'a> Model for InnerView<'a> {
    ghost use Rattle.page_image.specs.Image.{Image};

    ghost Value = { Image };

    ghost view = { λ inner. inner.page.now };
}

impl<'a> InnerView<'a> {
    /// None exactly where the page is no inner page.
    pub fn over(page: &'a Page) -> Option<InnerView<'a>>
        ensures { IsViewOf Kind.Inner page.now result }
    {
        if page.kind() != Kind::Inner {
            return None;
        }
        Some(InnerView { page })
    }

    pub fn count(&self) -> usize
        ensures { result ≡ length self.now.items }
    {
        usize::from(self.page.slots())
    }

    /// The inner item at place i. None exactly where there is no item, or its bytes spell no inner item
    /// with a child below 32,768.
    pub fn item(&self, i: usize) -> Option<InnerRef<'a>>
        ensures { IsPartOrNone IsInner inner_bytes self.now.items i result }
    {
        let page = self.page;
        match page.item(i) {
            None => None,
            Some(item) => InnerRef::read(item),
        }
    }

    /// Whether each key is less than the next.
    pub fn keys_ascend(&self) -> bool
        ensures { IsTrue result ↔ Ascend (keys_of self.now.items) }
    {
        search::keys_ascend(self.page)
    }

    /// Whether the first key is empty, as it is in an inner page of a tree.
    pub fn least_is_empty(&self) -> bool
        ensures { IsTrue result ↔ (slice_get (keys_of self.now.items) 0 ≡ Some []) }
    {
        self.page.slots() > 0 && search::key_at(self.page, 0).is_empty()
    }

    /// The last place whose key is not greater, where the child that holds the key stands.
    pub fn child_for(&self, key: &[u8]) -> usize
        requires some { 0 < length self.now.items }
        requires ascend { Ascend (keys_of self.now.items) }
        requires least { slice_get (keys_of self.now.items) 0 ≡ Some [] }
        ensures { IsChildFor (keys_of self.now.items) key.now result }
    {
        match search::find(self.page, key) {
            Ok(place) => place,
            Err(lesser) => lesser - 1,
        }
    }
}

/// Bytes spell one inner item alone. It does nothing when it is run.
#[tactic(auto, using(crate::proofs::InnerLaws::one_inner))]
pub fn inner_laws()
    ensures { OneInner }
{}
