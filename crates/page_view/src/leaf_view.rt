ghost use Rattle.std.specs.Prelude.{◌≡◌, length, IsTrue, ◌↔◌};
ghost use Rattle.page_view.specs.Leaf.{IsLeaf, leaf_bytes};
ghost use Rattle.page_view.specs.Keys.{Ascend, keys_of, IsFound};
ghost use Rattle.page_view.specs.Views.{IsPartOrNone, IsViewOf};

use crate::leaf::LeafRef;
use crate::search;
use page_image::{Kind, Page};
use std::marker::Model;

/// The items of a leaf.
#[derive(Debug, Drop)]
pub struct LeafView<'a> {
    page: &'a Page,
}

impl<'a> Model for LeafView<'a> {
    ghost use Rattle.page_image.specs.Image.{Image};

    ghost Value = { Image };

    ghost view = { λ leaf. leaf.page.now };
}

impl<'a> LeafView<'a> {
    /// None exactly where the page is no leaf.
    pub fn over(page: &'a Page) -> Option<LeafView<'a>>
        ensures { IsViewOf Kind.Leaf page.now result }
    {
        if page.kind() != Kind::Leaf {
            return None;
        }
        Some(LeafView { page })
    }

    pub fn count(&self) -> usize
        ensures { result ≡ length self.now.items }
    {
        usize::from(self.page.slots())
    }

    /// The leaf item at place i. None exactly where there is no item, or its bytes spell no leaf item.
    pub fn item(&self, i: usize) -> Option<LeafRef<'a>>
        ensures { IsPartOrNone IsLeaf leaf_bytes self.now.items i result }
    {
        let page = self.page;
        match page.item(i) {
            None => None,
            Some(item) => LeafRef::read(item),
        }
    }

    /// Whether each key is less than the next.
    pub fn keys_ascend(&self) -> bool
        ensures { IsTrue result ↔ Ascend (keys_of self.now.items) }
    {
        search::keys_ascend(self.page)
    }

    /// Ok of the key's place, or Err of the number of lesser keys.
    pub fn find(&self, key: &[u8]) -> Result<usize, usize>
        requires { Ascend (keys_of self.now.items) }
        ensures { IsFound (keys_of self.now.items) key.now result }
    {
        search::find(self.page, key)
    }
}
