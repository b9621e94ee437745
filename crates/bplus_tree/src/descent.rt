ghost use Rattle.std.specs.Prelude.{◌≡◌, ◌<◌, ◌≤◌, Some};
ghost use Rattle.bplus_tree.specs.declared.want.Want.TheVariants as want;
ghost use Rattle.bplus_tree.specs.Walk.{Walking, start, wanted, IsToRead, Told, Moves, pages_left};

use crate::steps::child_for;
use crate::want::Want;
use page_image::{Kind, Page};
use rm_base::{Bytes, MAX_TREE_LEVEL, PageId};
use std::marker::Model;

/// The way from a tree's root down to the leaf that holds a key. It asks for one page after the other, and
/// is given each.
#[derive(Drop)]
pub struct Descent {
    key: Bytes,
    want: Want,
    depth: u8,
}

impl Model for Descent {
    ghost use Rattle.std.specs.Prelude.{Some, ◌≤◌};
    ghost use Rattle.bplus_tree.specs.Walk.{Walking};

    ghost Value = { Walking };

    ghost view = { λ it. record { low = Some it.key; high = Some it.key; want = it.want; depth = it.depth; passed = 0 } };

    ghost invariant = { λ it. it.depth ≤ 8 };
}

impl Descent {
    pub fn new(root: PageId, key: Bytes) -> Descent
        ensures { result ≡ start root (Some key) (Some key) }
    {
        Descent {
            key,
            want: Want::Need(root),
            depth: 0,
        }
    }

    pub fn next(&self) -> Want
        ensures wanted { result ≡ self.now.want }
        ensures depth { self.now.depth ≤ 8 }
    {
        self.want
    }

    /// Takes the page that `next` names. After a page on the way the next one is named; a leaf is named once
    /// more, as the one that holds the key, and ends the search when it is given again.
    #[tactic(auto, using(crate::proofs::Telling::ends, crate::proofs::Telling::one_leaf, crate::proofs::Telling::nearer))]
    pub fn give(&mut self, page: &Page)
        requires wanted { wanted self.old.want ≡ Some page.now.page }
        requires readable { IsToRead page.now }
        ensures told { Told self.old page.now self.new }
        ensures nearer { pages_left self.new < pages_left self.old }
    {
        match self.next() {
            Want::Need(at) => self.go_down(at, page),
            Want::Leaf(_) => self.want = Want::Finished,
            Want::Finished => {}
        }
    }

    #[tactic(auto, using(crate::proofs::Telling::named, crate::proofs::Telling::deeper, crate::proofs::Telling::too_deep))]
    fn go_down(&mut self, at: PageId, page: &Page)
        requires { IsToRead page.now }
        ensures { Moves (want.Need at) page.now.kind self.old page.now self.new }
    {
        match page.kind() {
            Kind::Leaf => self.want = Want::Leaf(at),
            _ if self.depth < MAX_TREE_LEVEL => {
                self.want = Want::Need(child_for(page, self.key.as_slice()));
                self.depth += 1;
            }
            _ => self.want = Want::Finished,
        }
    }
}
