ghost use Rattle.std.specs.Prelude.{◌≡◌, ◌≢◌, ◌≤◌, ◌<◌, ◌+◌, ◌-◌, ◌*◌, ◌↔◌, ◌&&◌, ℕ, true, false, [], length, nat_eq, if◌then◌else◌, slice_set, Some, None, is_some, IfOk, IfSome, IsNone, OnOk, OnErr};
ghost use Rattle.std.specs.List.{IsDistinct};
ghost use Rattle.std.specs.Option.{option_copied};
ghost use Rattle.home_model.specs.Numbered.{put};
ghost use Rattle.home_model.specs.Entry.{no_entry, takes_slot, registered, invalidated, struck, raised};
ghost use Rattle.page_latches.specs.Set.{has};
ghost use Rattle.home_tables.specs.Numbers.{has_page};
ghost use Rattle.home_tables.specs.Table.{address_number, is_on};
ghost use Rattle.home_tables.specs.Access.{accessed};
ghost use Rattle.home_tables.specs.Pairs.{pair_number, earlier, IsFirst};

mod losing;

use crate::entry::{Access, Entry, later};
use crate::number_set::NumberSet;
use indexmap::IndexMap;
use indexmap::map::Slice;
use page_latches::{Latch, Mode, NodeSet};
use rm_base::{Addr, Lsn, NodeId, PageId, SlabId, WantOfMemory};
use std::alloc::Global;
use std::marker::Model;

/// The pages of one set.
const PAGES: usize = 32768;

/// The home's tables. Contracts see the entries by page, and the watermark.
#[derive(Drop)]
pub struct Home {
    entries: IndexMap<PageId, Entry>,
    idle: NumberSet,
    due: NumberSet,
    watermark: Lsn,
}

impl Model for Home {
    ghost use Rattle.home_tables.specs.Home.{HomeState, AreKept};

    ghost Value = { HomeState };

    ghost view = { λ home. record { entries = home.entries.entries; watermark = home.watermark } };

    ghost invariant = { λ home. AreKept home.entries.entries home.idle home.due };
}

/// Says of the page whether it may be given away, in the set of its slab.
fn mark_idle(idle: &mut NumberSet, page: PageId, addr: Option<Addr>, is_idle: bool)
    requires { 524288 ≤ length idle.old }
    ensures bound { length idle.new ≡ length idle.old }
    ensures marks { (s q : ℕ) → s < 16 → q < 32768 → has_page idle.new s q ≡ (if nat_eq q page && is_on s addr then is_idle else has_page idle.old s q) }
{
    if let Some(addr) = addr {
        let slab = usize::from(addr.slab.number());
        let page = page.number() as usize;
        idle.set(slab * PAGES + page, is_idle);
    }
}

fn has_number(nodes: &NodeSet, number: u8) -> bool
    requires { number < 16 }
    ensures { result ≡ has nodes.now number }
{
    match NodeId::new(number) {
        Some(node) => nodes.contains(node),
        None => false,
    }
}

fn mark_at(due: &mut NumberSet, page: PageId, number: u8, is_due: bool)
    requires room { 524288 ≤ length due.old }
    requires number { number < 16 }
    ensures { due.new ≡ slice_set due.old (number * 32768 + page) is_due }
{
    let page = page.number() as usize;
    due.set(usize::from(number) * PAGES + page, is_due);
}

/// Says of the page at which nodes it is due, in the set of each node.
fn mark_due(due: &mut NumberSet, page: PageId, nodes: &NodeSet)
    requires { 524288 ≤ length due.old }
    ensures bound { length due.new ≡ length due.old }
    ensures marks { (n q : ℕ) → n < 16 → q < 32768 → has_page due.new n q ≡ (if nat_eq q page then has nodes.now n else has_page due.old n q) }
{
    let _number = page.number();
    for number in 0..16u8 {
        let is_due = has_number(nodes, number);
        mark_at(due, page, number, is_due);
    }
}

/// The page of a number of that set.
fn page_of(x: usize, set: usize) -> PageId
    requires from { set * 32768 ≤ x }
    requires until { x < set * 32768 + 32768 }
    ensures { result ≡ x - set * 32768 }
{
    PageId::new((x - set * PAGES) as u32).unwrap()
}

fn pair_number(page: PageId, node: NodeId) -> u32
    ensures { result ≡ pair_number page node }
{
    page.number() * 16 + u32::from(node.number())
}

/// The earlier of two pairs, by page and then node.
fn earlier(
    one: Option<(PageId, NodeId)>,
    other: Option<(PageId, NodeId)>,
) -> Option<(PageId, NodeId)>
    ensures { result ≡ earlier one other }
{
    let Some((page, node)) = one else {
        return other;
    };
    let Some((other_page, other_node)) = other else {
        return Some((page, node));
    };
    if pair_number(page, node) <= pair_number(other_page, other_node) {
        Some((page, node))
    } else {
        Some((other_page, other_node))
    }
}

impl Home {
    ghost use Rattle.home_tables.specs.Home.{HomeState, kept, entry_at, ChangesAt};
    ghost use Rattle.home_tables.specs.Trying.{Tries};
    ghost use Rattle.home_tables.specs.Order.{due_at, due_among, IsFirstIdle};
    ghost use Rattle.home_tables.specs.Places.{pages_in, KeepsBefore};
    ghost use Rattle.home_tables.specs.Replacing.{Replaces};

    /// A home without entries.
    pub fn new(alloc: Global, watermark: Lsn) -> Result<Home, WantOfMemory>
        ensures none { IfOk result (λ home. home.entries ≡ []) }
        ensures watermark { IfOk result (λ home. home.watermark ≡ watermark) }
    {
        let idle = NumberSet::with_sets(alloc, 16)?;
        let due = NumberSet::with_sets(alloc, 16)?;
        Ok(Home {
            entries: IndexMap::new(alloc),
            idle,
            due,
            watermark,
        })
    }

    /// Takes every entry out. The watermark is that one from now on.
    pub fn clear(&mut self, watermark: Lsn)
        ensures none { self.new.entries ≡ [] }
        ensures watermark { self.new.watermark ≡ watermark }
    {
        self.entries.clear();
        self.idle.clear();
        self.due.clear();
        self.watermark = watermark;
    }

    /// The floor of pages that have no entry.
    pub fn watermark(&self) -> Lsn
        ensures value { result ≡ self.now.watermark }
        ensures pages { (p : ℕ) → 32768 ≤ p → kept self.now p ≡ None }
    {
        self.watermark
    }

    /// The entry of the page.
    pub fn entry(&self, page: PageId) -> Option<&Entry>
        ensures { option_copied result ≡ kept self.now page }
    {
        self.entries.get(&page)
    }

    /// The entries with their pages, in no order of the pages.
    pub fn entries(&self) -> Slice<'_, PageId, Entry>
        ensures list { result ≡ self.now.entries }
        ensures apart { IsDistinct nat_eq (pages_in self.now) }
    {
        self.entries.as_slice()
    }

    /// Whether the page has no entry or has lost its slot.
    pub fn takes_slot(&self, page: PageId) -> bool
        ensures { result ≡ takes_slot (entry_at self.now page) }
    {
        match self.entries.get(&page) {
            Some(entry) => entry.is_lost(),
            None => true,
        }
    }

    /// Changes the entry of the page. Nothing changes where it has none.
    pub fn access(&mut self, page: PageId, access: Access)
        ensures { ChangesAt self.old self.new page (accessed access) }
    {
        if let Some(entry) = self.entries.get_mut(&page) {
            entry.access(access);
            let is_idle = entry.is_idle();
            let addr = entry.addr;
            mark_idle(&mut self.idle, page, addr, is_idle);
        }
    }

    /// A try of the page's latch. None exactly where the page has no entry.
    pub fn try_latch(&mut self, page: PageId, node: NodeId, mode: Mode) -> Option<Latch>
        ensures none { IsNone result ↔ ((entry_at self.old page).there ≡ false) }
        ensures tried { IfSome result (λ latch. Tries self.old self.new page node mode latch) }
        ensures same { IsNone result → self.new ≡ self.old }
    {
        match self.entries.get_mut(&page) {
            Some(entry) => {
                let latch = entry.try_latch(node, mode);
                let is_idle = entry.is_idle();
                let addr = entry.addr;
                mark_idle(&mut self.idle, page, addr, is_idle);
                Some(latch)
            }
            None => None,
        }
    }

    /// The node changes the page, of which the nodes `fresh` may have a copy that they take for the
    /// latest.
    pub fn invalidate(&mut self, page: PageId, node: NodeId, fresh: &NodeSet)
        ensures { ChangesAt self.old self.new page (λ E. invalidated E (has fresh.now) node) }
    {
        if let Some(entry) = self.entries.get_mut(&page) {
            entry.invalidate(fresh, node);
            mark_due(&mut self.due, page, &entry.due);
        }
    }

    fn enter_new(
        &mut self,
        page: PageId,
        node: NodeId,
        fresh: Addr,
        floor: Lsn,
    ) -> Result<(), WantOfMemory>
        requires { is_some (kept self.old page) ≡ false }
        ensures entered { OnOk result (entry_at self.new ≡ put (entry_at self.old) page
            (registered (entry_at self.old page) floor (address_number fresh) node)) }
        ensures watermark { self.new.watermark ≡ self.old.watermark }
        ensures err { OnErr result (self.new ≡ self.old) }
    {
        let _number = page.number();
        let entry = Entry::entered(page, node, fresh, floor);
        self.entries.insert(page, entry)?;
        Ok(())
    }

    fn enter_lost(&mut self, page: PageId, node: NodeId, fresh: Addr)
        requires there { is_some (kept self.old page) ≡ true }
        requires slot { takes_slot (entry_at self.old page) ≡ true }
        ensures entered { (floor : ℕ) → entry_at self.new ≡ put (entry_at self.old) page
            (registered (entry_at self.old page) floor (address_number fresh) node) }
        ensures watermark { self.new.watermark ≡ self.old.watermark }
    {
        let Some(entry) = self.entries.get_mut(&page) else {
            return;
        };
        entry.enter(node, fresh);
    }

    fn enter_above(
        &mut self,
        page: PageId,
        node: NodeId,
        fresh: Addr,
        floor: Lsn,
    ) -> Result<(), WantOfMemory>
        requires { takes_slot (entry_at self.old page) ≡ true }
        ensures entered { OnOk result (entry_at self.new ≡ put (entry_at self.old) page
            (registered (entry_at self.old page) floor (address_number fresh) node)) }
        ensures watermark { self.new.watermark ≡ self.old.watermark }
        ensures err { OnErr result (self.new ≡ self.old) }
    {
        if self.entries.contains_key(&page) {
            self.enter_lost(page, node, fresh);
            return Ok(());
        }
        self.enter_new(page, node, fresh, floor)
    }

    /// The node registers the page, which has no entry or has lost its slot, and gets the slot at the
    /// address.
    pub fn enter(&mut self, page: PageId, node: NodeId, fresh: Addr) -> Result<(), WantOfMemory>
        requires { takes_slot (entry_at self.old page) ≡ true }
        ensures entered { OnOk result (entry_at self.new ≡ put (entry_at self.old) page
            (registered (entry_at self.old page) self.old.watermark (address_number fresh) node)) }
        ensures watermark { self.new.watermark ≡ self.old.watermark }
        ensures err { OnErr result (self.new ≡ self.old) }
    {
        self.enter_above(page, node, fresh, self.watermark)
    }

    /// Takes the entry of the page out.
    fn remove(&mut self, page: PageId) -> Option<Entry>
        ensures entry { result ≡ kept self.old page }
        ensures gone { kept self.new page ≡ None }
        ensures beside { (q : ℕ) → q ≢ page → kept self.new q ≡ kept self.old q }
        ensures watermark { self.new.watermark ≡ self.old.watermark }
        ensures same { IsNone result → self.new ≡ self.old }
        ensures front { KeepsBefore self.old self.new page }
    {
        let entry = self.entries.swap_remove(&page)?;
        let nobody = NodeSet::new();
        mark_idle(&mut self.idle, page, entry.addr, false);
        mark_due(&mut self.due, page, &nobody);
        Some(entry)
    }

    #[tactic(auto, using(crate::proofs::Losing::put_of))]
    /// Gives the page away: its entry goes, and the watermark rises to what it knew. None exactly where
    /// it has none.
    pub fn give_away(&mut self, page: PageId) -> Option<Entry>
        ensures none { IsNone result ↔ ((entry_at self.old page).there ≡ false) }
        ensures entry { IfSome result (λ entry. kept self.old page ≡ Some entry) }
        ensures gone { IfSome result (λ entry. entry_at self.new ≡ put (entry_at self.old) page no_entry) }
        ensures watermark { IfSome result (λ entry. self.new.watermark ≡ raised (entry_at self.old page) self.old.watermark) }
        ensures same { IsNone result → self.new ≡ self.old }
    {
        let entry = self.remove(page)?;
        self.watermark = later(self.watermark, later(entry.lsn, entry.floor));
        Some(entry)
    }

    /// The watermark after the page was given away.
    fn watermark_without(&self, page: PageId) -> Lsn
        ensures { result ≡ raised (entry_at self.now page) self.now.watermark }
    {
        match self.entries.get(&page) {
            Some(entry) => later(self.watermark, later(entry.lsn, entry.floor)),
            None => self.watermark,
        }
    }

    /// The node registers the page, which has no entry or has lost its slot, and gets the slot of
    /// another page, which is given away for it first.
    pub fn replace(
        &mut self,
        given: PageId,
        page: PageId,
        node: NodeId,
        slot: Addr,
    ) -> Result<(), WantOfMemory>
        requires takes { takes_slot (entry_at self.old page) ≡ true }
        requires given { (entry_at self.old given).address ≡ Some (address_number slot) }
        ensures replaced { OnOk result (Replaces self.old self.new given page node (address_number slot)) }
        ensures err { OnErr result (self.new ≡ self.old) }
    {
        let floor = self.watermark_without(given);
        self.enter_above(page, node, slot, floor)?;
        self.give_away(given);
        Ok(())
    }

    /// The least page that may be given away for its slot of the slab.
    pub fn idle_page(&self, slab: SlabId) -> Option<PageId>
        ensures { IsFirstIdle self.now slab result }
    {
        let set = usize::from(slab.number());
        let x = self.idle.least(set)?;
        let page = page_of(x, set);
        Some(page)
    }

    /// The least page that is due at the node.
    fn due_at(&self, node: NodeId) -> Option<(PageId, NodeId)>
        ensures { IsFirst (due_at self.now node) result }
    {
        let set = usize::from(node.number());
        let x = self.due.least(set)?;
        let page = page_of(x, set);
        Some((page, node))
    }

    /// The first pair, by page and then node, of a page that is due at a node which is up.
    pub fn first_due(&self, up: &NodeSet) -> Option<(PageId, NodeId)>
        ensures { IsFirst (due_among self.now up.now) result }
    {
        let mut first = None;
        for node in up.as_slice() {
            first = earlier(first, self.due_at(*node));
        }
        first
    }

    fn strike(&mut self, page: PageId, node: NodeId)
        ensures { ChangesAt self.old self.new page (λ E. struck E node) }
    {
        if let Some(entry) = self.entries.get_mut(&page) {
            entry.strike(node);
            mark_due(&mut self.due, page, &entry.due);
        }
    }

    /// The first page that is due at a node which is up is due there no longer, since its local bit was
    /// set. None exactly where no page is due at such a node; then nothing changes.
    pub fn turn(&mut self, up: &NodeSet) -> Option<(PageId, NodeId)>
        ensures first { IsFirst (due_among self.old up.now) result }
        ensures struck { IfSome result (λ pair. ChangesAt self.old self.new pair.0 (λ E. struck E pair.1)) }
        ensures same { IsNone result → self.new ≡ self.old }
    {
        let (page, node) = self.first_due(up)?;
        self.strike(page, node);
        Some((page, node))
    }
}
