ghost use Rattle.std.specs.Prelude.{◌≡◌, ◌≤◌, ◌<◌, ◌↔◌, [], ℕ, IsTrue, IsOk, IfOk, OnOk, OnErr, IsSome, IsSomeAnd, IfSome, is_some, length};
ghost use Rattle.std.specs.Option.{option_copied, option_copied_mut, option_map, option_map_or};

use lru::LruCache;
use page_image::Page;
use rm_base::{PageId, WantOfMemory};
use std::alloc::Global;
use std::marker::Model;
use std::num::NonZeroUsize;

/// A node's copy of a page: its image, whether the image is known to be old, and how many uses under
/// way have it.
#[derive(Debug, Drop)]
pub struct Cached {
    pub page: Page,
    pub bit: bool,
    pub pins: u8,
}

/// The copies of a node, by their last use. Contracts see the copies in that order, the most recently
/// used first.
#[derive(Drop)]
pub struct LocalCache {
    copies: LruCache<PageId, Cached>,
    capacity: u16,
}

impl Model for LocalCache {
    ghost use Rattle.std.specs.Prelude.{◌≤◌, length};
    ghost use Rattle.local_cache.specs.Cache.{Cache, cache_with};

    ghost Value = { Cache };

    ghost view = { λ cache. cache_with cache.copies.entries cache.capacity };

    ghost invariant = { λ cache. (length cache.copies.entries ≤ cache.capacity) × (cache.capacity ≤ cache.copies.cap) };
}

impl LocalCache {
    ghost use Rattle.std.specs.Borrow.{sem};
    ghost use Rattle.local_cache.specs.Cache.{Cache, cache_with, IsCache, IsFull, copy_of, used, put_first, with_copy, dropped, oldest_unpinned, pinned, unpinned, with_bit};
    ghost use Rattle.local_cache.specs.Lending.{EndsUsed, LendsImage};

    /// A cache without copies.
    pub fn new(alloc: Global, capacity: u16) -> Result<LocalCache, WantOfMemory>
        ensures { IfOk result (λ cache. cache ≡ cache_with [] capacity) }
    {
        let room = NonZeroUsize::new(usize::from(capacity)).unwrap_or(NonZeroUsize::MIN);
        let copies = LruCache::new(alloc, room)?;
        Ok(LocalCache { copies, capacity })
    }

    pub fn len(&self) -> usize
        ensures count { result ≡ length self.now.copies }
        ensures rules { IsCache self.now }
    {
        self.copies.len()
    }

    /// Whether no further page has room.
    pub fn full(&self) -> bool
        ensures { IsTrue result ↔ IsFull self.now }
    {
        usize::from(self.capacity) <= self.copies.len()
    }

    #[tactic(auto, using(crate::proofs::Copies::length_promoted))]
    /// The copy of the page, which becomes the most recently used.
    pub fn get(&mut self, page: PageId) -> Option<&Cached>
        ensures* promotes { sem 𝓛 (EndsUsed self.entry page) }
        ensures value { option_copied result ≡ copy_of self.old page }
    {
        self.copies.get(&page)
    }

    /// The copy of the page. The order stays.
    pub fn peek(&self, page: PageId) -> Option<&Cached>
        ensures { option_copied result ≡ copy_of self.now page }
    {
        self.copies.peek(&page)
    }

    /// Keeps a copy of the page, which becomes the most recently used. The old copy comes back.
    pub fn put(&mut self, page: PageId, copy: Cached) -> Result<Option<Cached>, WantOfMemory>
        requires { IsFull self.old → IsSome (copy_of self.old page) }
        ensures old { IfOk result (λ old. old ≡ copy_of self.old page) }
        ensures kept { OnOk result (self.new ≡ put_first self.old page copy) }
        ensures err { OnErr result (self.new ≡ self.old) }
    {
        Ok(self.copies.put(page, copy)?)
    }

    #[tactic(auto, using(crate::proofs::Copies::length_changed))]
    /// One more use under way has the copy.
    pub fn pin(&mut self, page: PageId)
        requires { IsSomeAnd (copy_of self.old page) (λ copy. copy.pins < 255) }
        ensures { IfSome (copy_of self.old page) (λ copy. self.new ≡ with_copy self.old page (pinned copy)) }
    {
        if let Some(copy) = self.copies.peek_mut(&page) {
            copy.pins += 1;
        }
    }

    #[tactic(auto, using(crate::proofs::Copies::length_changed))]
    /// One use under way has the copy no longer.
    pub fn unpin(&mut self, page: PageId)
        requires { IsSomeAnd (copy_of self.old page) (λ copy. 0 < copy.pins) }
        ensures { IfSome (copy_of self.old page) (λ copy. self.new ≡ with_copy self.old page (unpinned copy)) }
    {
        if let Some(copy) = self.copies.peek_mut(&page) {
            copy.pins -= 1;
        }
    }

    #[tactic(auto, using(crate::proofs::Copies::length_changed))]
    pub fn set_bit(&mut self, page: PageId, bit: bool)
        requires { IsSome (copy_of self.old page) }
        ensures { IfSome (copy_of self.old page) (λ copy. self.new ≡ with_copy self.old page (with_bit copy bit)) }
    {
        if let Some(copy) = self.copies.peek_mut(&page) {
            copy.bit = bit;
        }
    }

    #[tactic(auto, using(crate::proofs::Copies::length_changed))]
    /// The image of the page's copy, to write to. The order stays.
    pub fn page_mut(&mut self, page: PageId) -> Option<&mut Page>
        ensures* writes_back { sem 𝓛 (LendsImage self.entry page result) }
        ensures value { option_copied_mut result ≡ option_map (λ copy. copy.page) (copy_of self.old page) }
    {
        let copy = self.copies.peek_mut(&page)?;
        Some(&mut copy.page)
    }

    fn oldest_unpinned(&self) -> Option<PageId>
        ensures { result ≡ oldest_unpinned self.now }
    {
        for (page, copy) in self.copies.iter().rev() {
            if copy.pins == 0 {
                return Some(*page);
            }
        }
        None
    }

    #[tactic(auto, using(crate::proofs::Copies::length_removed))]
    /// Drops the least recently used page without a pin. None exactly where each page is pinned or
    /// there is none.
    pub fn evict(&mut self) -> Option<PageId>
        ensures page { result ≡ oldest_unpinned self.old }
        ensures dropped { self.new ≡ option_map_or (dropped self.old) result self.old }
    {
        let page = self.oldest_unpinned()?;
        self.copies.pop(&page);
        Some(page)
    }

    #[tactic(auto, using(crate::proofs::Copies::length_removed))]
    /// Drops the page's copy. False exactly where there is none.
    pub fn drop_page(&mut self, page: PageId) -> bool
        ensures found { result ≡ is_some (copy_of self.old page) }
        ensures dropped { self.new ≡ dropped self.old page }
    {
        self.copies.pop(&page).is_some()
    }

    /// Drops every copy.
    pub fn clear(&mut self)
        ensures { self.new ≡ cache_with [] self.old.capacity }
    {
        self.copies.clear();
    }
}
