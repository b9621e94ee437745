ghost use Rattle.std.specs.Prelude.{◌≡◌, ◌≢◌, ◌≤◌, ◌<◌, ℕ, Bool, false, true, Some, IfOk, IfSome, IsNone};
ghost use Rattle.coherent_pool.specs.Known.{nothing_known, known_at, is_leaving, SetsKnown, SetsLeaving, Clears};

use home_tables::NumberSet;
use rm_base::{Addr, MAX_PAGES, PageId, WantOfMemory};
use std::alloc::Global;
use std::marker::Model;

/// What a node keeps of a page beside its copy.
#[derive(Clone, Copy, Debug, PartialEq, Eq)]
pub struct Known {
    /// Registered, or on the leaving list.
    pub kept: bool,
    /// The address that the node was told and did not forget.
    pub addr: Option<Addr>,
    /// The local bit: no copy of the page may be used without a look.
    pub bit: bool,
}

/// What a node keeps of each page beside its copy, and the pages that are to be unregistered.
#[derive(Drop)]
pub struct AddressTable {
    pages: Vec<Known>,
    leaving: NumberSet,
}

impl Model for AddressTable {
    ghost use Rattle.coherent_pool.specs.Known.{Table, IsTable};

    ghost Value = { Table };

    ghost view = { λ table. record { pages = table.pages.items; leaving = table.leaving } };

    ghost invariant = { λ table. IsTable (record { pages = table.pages.items; leaving = table.leaving }) };
}

impl Known {
    /// The node knows nothing of the page.
    pub const NOTHING: Known = Known {
        kept: false,
        addr: None,
        bit: true,
    };
}

#[tactic(auto, using(crate::proofs::Tables::clears, crate::proofs::Tables::cleared_more))]
fn clear_all(pages: &mut [Known])
    ensures { Clears pages.old pages.new }
{
    for known in pages.iter_mut() {
        *known = Known::NOTHING;
    }
}

impl AddressTable {
    /// A table of a node that knows of no page.
    #[tactic(auto, using(crate::proofs::Tables::nothing_at, crate::proofs::Tables::whole))]
    pub fn new(alloc: Global) -> Result<AddressTable, WantOfMemory>
        ensures known { IfOk result (λ table. (p : ℕ) → known_at table p ≡ nothing_known) }
        ensures leaving { IfOk result (λ table. (p : ℕ) → is_leaving table p ≡ false) }
    {
        let pages = vec![in alloc; Known::NOTHING; MAX_PAGES as usize]?;
        let leaving = NumberSet::with_sets(alloc, 1)?;
        Ok(AddressTable { pages, leaving })
    }

    /// What is kept of the page.
    #[tactic(auto, using(crate::proofs::Tables::read_at))]
    pub fn known(&self, page: PageId) -> Known
        ensures { result ≡ known_at self.now page }
    {
        self.pages[page.number() as usize]
    }

    /// From now on this is kept of the page.
    #[tactic(auto, using(crate::proofs::Tables::sets_known))]
    pub fn set(&mut self, page: PageId, known: Known)
        ensures { SetsKnown page known self.old self.new }
    {
        self.pages[page.number() as usize] = known;
    }

    /// Whether the page is to be unregistered.
    pub fn is_leaving(&self, page: PageId) -> bool
        ensures { result ≡ is_leaving self.now page }
    {
        self.leaving.contains(page.number() as usize)
    }

    /// Says of the page whether it is to be unregistered.
    #[tactic(auto, using(crate::proofs::Tables::sets_leaving))]
    pub fn set_leaving(&mut self, page: PageId, leaves: bool)
        ensures { SetsLeaving page leaves self.old self.new }
    {
        self.leaving.set(page.number() as usize, leaves);
    }

    /// The least page that is to be unregistered.
    #[tactic(auto, using(crate::proofs::Tables::least_page))]
    pub fn first_leaving(&self) -> Option<PageId>
        ensures found { IfSome result (λ p. is_leaving self.now p ≡ true) }
        ensures least { IfSome result (λ p. (q : ℕ) → q < p → is_leaving self.now q ≡ false) }
        ensures none { IsNone result → (q : ℕ) → q < 32768 → is_leaving self.now q ≡ false }
    {
        let number = self.leaving.least(0)?;
        PageId::new(number as u32)
    }

    /// From now on nothing is known of any page.
    pub fn clear(&mut self)
        ensures known { (p : ℕ) → known_at self.new p ≡ nothing_known }
        ensures leaving { (p : ℕ) → is_leaving self.new p ≡ false }
    {
        clear_all(self.pages.as_mut_slice());
        self.leaving.clear();
    }
}
