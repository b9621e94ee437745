//! A page as a value.
ghost use Rattle.std.specs.Prelude.{◌≡◌, ◌≤◌, ◌+◌, ◌↔◌, slice_range, length, IfOk, IfErr, IsOk, IsTrue, slice_get};
ghost use Rattle.std.specs.Option.{option_copied};
ghost use Rattle.page_image.specs.Image.{unmade, free_of, made, patched, inserted, removed, cut_from, linked};
ghost use Rattle.page_image.specs.Image.{CanMake, CanPatch, CanInsert, CanRemove, CanCut, CanLink, Follows};
ghost use Rattle.page_image.specs.Layout.{page_bytes};
ghost use Rattle.page_image.specs.Rules.{IsImage, IsPage};
ghost use Rattle.page_image.specs.Faults.{fault};

use crate::changes;
use crate::errors::BadPage;
use crate::faults::first_fault;
use crate::header::Header;
use crate::kind::Kind;
use crate::layout::item_end;
use rm_base::{
    Duplicate, Lsn, MAX_PAGE_ID, MAX_TREE_LEVEL, PAGE_BYTES, PAGE_HEADER_BYTES, PageId,
    WantOfMemory, get_u16, get_u32, get_u64,
};
use std::alloc::Global;
use std::marker::Model;

/// A page of 4,096 bytes. Contracts see its header and its items or its body.
#[derive(Debug, Drop)]
pub struct Page {
    bytes: Vec<u8>,
}

impl Model for Page {
    ghost use Rattle.page_image.specs.Image.{Image};
    ghost use Rattle.page_image.specs.Layout.{image_of};
    ghost use Rattle.page_image.specs.Rules.{IsPage};

    ghost Value = { Image };

    ghost view = { λ page. image_of page.bytes.items };

    ghost invariant = { λ page. IsPage page.bytes.items };
}

impl Page {
    ghost use Rattle.std.specs.Borrow.{sem};
    ghost use Rattle.page_image.specs.Lending.{CanLend, LendsPart};

    /// The page before it is made.
    pub fn blank(alloc: Global, page: PageId) -> Result<Page, WantOfMemory>
        ensures { IfOk result (λ blank. blank ≡ unmade page) }
    {
        let mut bytes = vec![in alloc; 0u8; PAGE_BYTES]?;
        changes::write_blank(bytes.as_mut_slice(), page);
        Ok(Page { bytes })
    }

    /// The page that the bytes are. BadPage exactly where they are no page.
    pub fn check(alloc: Global, bytes: &[u8]) -> Result<Result<Page, BadPage>, WantOfMemory>
        ensures accepts { IfOk result (λ judged. IsOk judged ↔ IsPage bytes.now) }
        ensures same { IfOk result (λ judged. IfOk judged (λ page. page_bytes page ≡ bytes.now)) }
        ensures bad { IfOk result (λ judged. IfErr judged (λ bad. fault bytes.now ≡ Some bad.at)) }
    {
        match first_fault(bytes) {
            Some(at) => Ok(Err(BadPage { at: at as u16 })),
            None => {
                let bytes = Vec::from_slice(alloc, bytes)?;
                Ok(Ok(Page { bytes }))
            }
        }
    }

    /// Makes this page the same as the other one.
    pub fn copy_from(&mut self, other: &Page)
        ensures { self.new ≡ other.now }
    {
        self.bytes
            .as_mut_slice()
            .copy_from_slice(other.bytes.as_slice());
    }

    /// The page as it is stored.
    pub fn bytes(&self) -> &[u8]
        ensures spelled { result.now ≡ page_bytes self.now }
        ensures all { length result.now ≡ PAGE_BYTES }
        ensures rules { IsImage self.now }
    {
        self.bytes.as_slice()
    }

    pub fn kind(&self) -> Kind
        ensures { result ≡ self.now.kind }
    {
        Kind::from_number(self.bytes[0]).unwrap_or(Kind::Unmade)
    }

    pub fn page(&self) -> PageId
        ensures { result ≡ self.now.page }
    {
        PageId::new(get_u32(self.bytes.as_slice(), 4)).unwrap()
    }

    /// The LSN of the last change. 0 before the page is made.
    pub fn lsn(&self) -> Lsn
        ensures { result ≡ self.now.lsn }
    {
        Lsn::new(get_u64(self.bytes.as_slice(), 8))
    }

    /// The LSN of the last change of the page's shape: its making, a cut, a link, or on an inner
    /// page a change of its items.
    pub fn structure(&self) -> Lsn
        ensures { result ≡ self.now.structure }
    {
        Lsn::new(get_u64(self.bytes.as_slice(), 16))
    }

    /// The page to the right, or 0.
    pub fn next(&self) -> u32
        ensures value { result ≡ self.now.next }
        ensures bound { result ≤ MAX_PAGE_ID }
    {
        get_u32(self.bytes.as_slice(), 24)
    }

    /// The height over the leaves: 1 to 8 on an inner page, else 0.
    pub fn level(&self) -> u8
        ensures { result ≡ self.now.level }
    {
        self.bytes[30]
    }

    /// The number of items.
    pub fn slots(&self) -> u16
        ensures value { result ≡ length self.now.items }
        ensures bound { result ≤ 1354 }
    {
        get_u16(self.bytes.as_slice(), 2)
    }

    /// The bytes between the slots and the items, each of which takes a slot of 2 bytes besides its
    /// own. 0 on a page without items.
    pub fn free(&self) -> u16
        ensures { result ≡ free_of self.now }
    {
        let header = Header::read(self.bytes.as_slice());
        header
            .low
            .saturating_sub(PAGE_HEADER_BYTES as u16 + 2 * header.slots)
    }

    /// None exactly past the last item.
    pub fn item(&self, i: usize) -> Option<&[u8]>
        ensures { option_copied result ≡ slice_get self.now.items i }
    {
        if i >= usize::from(self.slots()) {
            return None;
        }
        let bytes = self.bytes.as_slice();
        let from = item_end(bytes, i + 1);
        let to = item_end(bytes, i);
        Some(&bytes[from..to])
    }

    /// Whether the page can be made one of that kind and level.
    pub fn can_make(&self, kind: Kind, level: u8) -> bool
        ensures { IsTrue result ↔ CanMake self.now kind level }
    {
        let level_fits = match kind {
            Kind::Unmade => false,
            Kind::Inner => 1 <= level && level <= MAX_TREE_LEVEL,
            _ => level == 0,
        };
        let from = match self.kind() {
            Kind::Unmade => true,
            Kind::Leaf | Kind::Inner => self.slots() == 0 && kind == Kind::Inner,
            _ => false,
        };
        level_fits && from
    }

    /// Makes the page an empty one of that kind and level.
    pub fn make(&mut self, kind: Kind, level: u8, lsn: Lsn)
        requires can { CanMake self.old kind level }
        requires follows { Follows self.old lsn }
        ensures { self.new ≡ made self.old kind level lsn }
    {
        changes::make(self.bytes.as_mut_slice(), kind, level, lsn.number());
    }

    /// Whether the item can join the items at place i.
    pub fn can_insert(&self, i: u16, item: &[u8]) -> bool
        ensures { IsTrue result ↔ CanInsert self.now i item.now }
    {
        let free = usize::from(self.free());
        self.kind().has_items()
            && i <= self.slots()
            && 1 <= item.len()
            && item.len() <= free
            && item.len() + 2 <= free
    }

    /// Puts the item at place i, in front of the item that is there now.
    pub fn insert_item(&mut self, i: u16, item: &[u8], lsn: Lsn)
        requires can { CanInsert self.old i item.now }
        requires follows { Follows self.old lsn }
        ensures { self.new ≡ inserted self.old i item.now lsn }
    {
        changes::insert(
            self.bytes.as_mut_slice(),
            usize::from(i),
            item,
            lsn.number(),
        );
    }

    /// Whether the item at place i can leave.
    pub fn can_remove(&self, i: u16) -> bool
        ensures { IsTrue result ↔ CanRemove self.now i }
    {
        self.kind().has_items() && i < self.slots()
    }

    /// Takes the item at place i out.
    pub fn remove_item(&mut self, i: u16, lsn: Lsn)
        requires can { CanRemove self.old i }
        requires follows { Follows self.old lsn }
        ensures { self.new ≡ removed self.old i lsn }
    {
        changes::remove(self.bytes.as_mut_slice(), usize::from(i), lsn.number());
    }

    /// Whether the items from place `from` on can leave.
    pub fn can_cut(&self, from: u16) -> bool
        ensures { IsTrue result ↔ CanCut self.now from }
    {
        self.kind().has_items() && from <= self.slots()
    }

    /// Takes the items from place `from` on out.
    pub fn cut(&mut self, from: u16, lsn: Lsn)
        requires can { CanCut self.old from }
        requires follows { Follows self.old lsn }
        ensures { self.new ≡ cut_from self.old from lsn }
    {
        changes::cut(self.bytes.as_mut_slice(), usize::from(from), lsn.number());
    }

    /// Whether the page can be linked to page `next`, or to none by 0.
    pub fn can_link(&self, next: u32) -> bool
        ensures { IsTrue result ↔ CanLink self.now next }
    {
        self.kind().has_items() && next <= MAX_PAGE_ID
    }

    /// Links the page to page `next`, or to none by 0.
    pub fn link(&mut self, next: u32, lsn: Lsn)
        requires can { CanLink self.old next }
        requires follows { Follows self.old lsn }
        ensures { self.new ≡ linked self.old next lsn }
    {
        changes::link(self.bytes.as_mut_slice(), next, lsn.number());
    }

    /// Whether the bytes lie in the page's body at offset `at`, counted from the page's start.
    pub fn can_patch(&self, at: u16, bytes: &[u8]) -> bool
        ensures { IsTrue result ↔ CanPatch self.now at bytes.now }
    {
        self.kind().has_body()
            && PAGE_HEADER_BYTES <= usize::from(at)
            && bytes.len() <= PAGE_BYTES
            && usize::from(at) + bytes.len() <= PAGE_BYTES
    }

    /// Puts the bytes into the body at offset `at`, counted from the page's start.
    pub fn patch(&mut self, at: u16, bytes: &[u8], lsn: Lsn)
        requires can { CanPatch self.old at bytes.now }
        requires follows { Follows self.old lsn }
        ensures { self.new ≡ patched self.old at bytes.now lsn }
    {
        changes::patch(
            self.bytes.as_mut_slice(),
            usize::from(at),
            bytes,
            lsn.number(),
        );
    }

    /// Whether `n` bytes lie in the page's body at offset `at`, counted from the page's start.
    pub fn can_lend(&self, at: usize, n: usize) -> bool
        ensures { IsTrue result ↔ CanLend self.now at n }
    {
        self.kind().has_body()
            && PAGE_HEADER_BYTES <= at
            && at <= PAGE_BYTES
            && n <= PAGE_BYTES
            && at + n <= PAGE_BYTES
    }

    /// Lends `n` bytes of the body from offset `at` on, counted from the page's start. What is written
    /// there are the page's bytes then, and all else stays.
    pub fn slice_mut(&mut self, at: usize, n: usize) -> &mut [u8]
        requires { CanLend self.old at n }
        ensures* writes_back { sem 𝓛 (LendsPart self.entry at result) }
        ensures value { result.now ≡ slice_range (page_bytes self.old) at (at + n) }
        ensures len { length result.now ≡ n }
    {
        self.bytes.slice_mut(at..at + n)
    }
}

impl Duplicate for Page {
    fn copy(&self, alloc: Global) -> Result<Page, WantOfMemory> {
        let bytes = Vec::from_slice(alloc, self.bytes.as_slice())?;
        Ok(Page { bytes })
    }
}
