ghost use Rattle.std.specs.Prelude.{◌≡◌, ◌<◌, ◌≤◌, Some};
ghost use Rattle.bplus_tree.specs.Walk as walk;
ghost use Rattle.bplus_tree.specs.declared.want.Want.TheVariants as want;
ghost use Rattle.bplus_tree.specs.Walk.{Walking, start, wanted, IsToRead, IsLeafToRead, Told, Moves, pages_left};

use crate::steps::{child_for, reaches};
use crate::want::{MOST_STEPS, Want};
use page_image::{Kind, Page};
use rm_base::{Bytes, KeyRange, MAX_PAGE_ID, MAX_TREE_LEVEL, PageId};
use std::cmp::Ordering;
use std::marker::Model;

/// The leaves of a tree that have the keys of a range, from the left to the right. It asks for one page
/// after the other, and is given each.
#[derive(Drop)]
pub struct LeafWalk {
    range: KeyRange,
    want: Want,
    depth: u8,
    passed: u32,
}

impl Model for LeafWalk {
    ghost use Rattle.std.specs.Prelude.{◌≤◌};
    ghost use Rattle.rm_base.specs.declared.limits.TheConstants.{MAX_PAGE_ID, MAX_TREE_LEVEL};
    ghost use Rattle.bplus_tree.specs.Walk.{Walking};

    ghost Value = { Walking };

    ghost view = { λ it. record { low = it.range.low; high = it.range.high; want = it.want; depth = it.depth; passed = it.passed } };

    ghost invariant = { λ it. (it.depth ≤ MAX_TREE_LEVEL) × (it.passed ≤ MAX_PAGE_ID) };
}

impl LeafWalk {
    pub fn new(root: PageId, range: KeyRange) -> LeafWalk
        ensures { result ≡ start root range.low range.high }
    {
        LeafWalk {
            range,
            want: Want::Need(root),
            depth: 0,
            passed: 0,
        }
    }

    pub fn next(&self) -> Want
        ensures wanted { result ≡ self.now.want }
        ensures depth { self.now.depth ≤ 8 }
        ensures passed { self.now.passed ≤ MAX_PAGE_ID }
    {
        self.want
    }

    /// Takes the page that `next` names. After a page on the way the next one is named; a leaf is named once
    /// more, as the first of the range. After a leaf of the range the one to its right is named, up to the
    /// one that ends the range.
    #[tactic(auto, using(crate::proofs::Telling::nearer))]
    pub fn give(&mut self, page: &Page)
        requires wanted { wanted self.old.want ≡ Some page.now.page }
        requires readable { IsToRead page.now }
        ensures told { Told self.old page.now self.new }
        ensures nearer { pages_left self.new < pages_left self.old }
    {
        match self.next() {
            Want::Need(at) => self.go_down(at, page),
            Want::Leaf(at) => self.go_on(at, page),
            Want::Finished => {}
        }
    }

    #[tactic(auto, using(crate::proofs::Telling::named, crate::proofs::Telling::deeper, crate::proofs::Telling::too_deep))]
    fn go_down(&mut self, at: PageId, page: &Page)
        requires { IsToRead page.now }
        ensures { Moves (want.Need at) page.now.kind self.old page.now self.new }
    {
        match page.kind() {
            Kind::Leaf => self.want = Want::Leaf(at),
            _ if self.depth < MAX_TREE_LEVEL => {
                self.want = Want::Need(child_for(page, self.low()));
                self.depth += 1;
            }
            _ => self.want = Want::Finished,
        }
    }

    #[tactic(auto, using(crate::proofs::Telling::goes_on, crate::proofs::Telling::ends))]
    fn go_on(&mut self, at: PageId, page: &Page)
        requires { IsToRead page.now }
        ensures { Moves (want.Leaf at) page.now.kind self.old page.now self.new }
    {
        match page.kind() {
            Kind::Leaf if !self.is_last(page) => {
                self.want = Want::Leaf(PageId::new(page.next()).unwrap());
                self.passed += 1;
            }
            _ => self.want = Want::Finished,
        }
    }

    /// The low end, or the least key.
    fn low(&self) -> &[u8]
        ensures { result.now ≡ walk.sought self.now.low }
    {
        match &self.range.low {
            None => &[],
            Some(low) => low.as_slice(),
        }
    }

    fn is_one_key(&self) -> bool
        ensures { result ≡ walk.one_key self.now.low self.now.high }
    {
        match (&self.range.low, &self.range.high) {
            (Some(low), Some(high)) => low.as_slice().cmp(high.as_slice()) == Ordering::Equal,
            _ => false,
        }
    }

    /// Whether the leaf ends the range.
    fn is_last(&self, page: &Page) -> bool
        requires { IsLeafToRead page.now }
        ensures { result ≡ walk.is_last self.now page.now }
    {
        page.next() == 0
            || reaches(&self.range.high, page)
            || self.is_one_key()
            || self.passed >= MOST_STEPS
    }
}
