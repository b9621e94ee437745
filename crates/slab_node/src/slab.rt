ghost use Rattle.std.specs.Prelude.{◌≡◌, ◌≢◌, ◌≤◌, ◌<◌, ◌+◌, ◌-◌, ◌^◌, ◌↔◌, ℕ, true, false, Some, Err, length, replicate, slice_get, IfOk, IfSome, IfNone, OnOk, OnErr, MatchOption, IsTrue};
ghost use Rattle.std.specs.Option.{option_map_or};
ghost use Rattle.page_image.specs.Image.{Image, unmade};

use crate::slots::Slots;
use page_image::Page;
use rm_base::{Addr, Duplicate, Incarnation, PageId, SlabId, WantOfMemory};
use std::alloc::Global;
use std::marker::Model;

/// Why a slab neither reads nor writes.
#[derive(Clone, Copy, Debug, PartialEq, Eq)]
pub enum SlabNo {
    /// The slab is down.
    Down,
    /// The address is one of another incarnation of the slab.
    OldSlab,
}

/// A slab of remote memory: slots for a page each. Contracts see what the slots hold and which are
/// taken.
#[derive(Debug, Drop)]
pub struct Slab {
    id: SlabId,
    incarnation: Incarnation,
    up: bool,
    pages: Vec<Page>,
    slots: Slots,
    /// What a slot holds before it is written.
    blank: Page,
}

impl Model for Slab {
    ghost use Rattle.std.specs.Prelude.{◌≡◌, ◌<◌, ◌^◌, length};
    ghost use Rattle.page_image.specs.Image.{unmade};
    ghost use Rattle.slab_node.specs.Slab.{SlabState};

    ghost Value = { SlabState };

    ghost view = { λ slab. record { id = slab.id; incarnation = slab.incarnation; up = slab.up; pages = slab.pages.items; taken = slab.slots } };

    ghost invariant = { λ slab. (length slab.slots ≡ length slab.pages.items) × (length slab.pages.items < 2 ^ 16) × (slab.blank ≡ unmade 0) };
}

fn copies(alloc: Global, page: &Page, count: u16) -> Result<Vec<Page>, WantOfMemory>
    ensures { IfOk result (λ pages. pages.items ≡ replicate count page.now) }
{
    let mut pages = Vec::with_capacity(alloc, usize::from(count))?;
    for _ in 0..count {
        pages.push(page.copy(alloc)?)?;
    }
    Ok(pages)
}

#[tactic(auto, using(crate::proofs::Copies::all_same))]
fn make_all(pages: &mut [Page], page: &Page)
    ensures { pages.new ≡ replicate (length pages.old) page.now }
{
    for slot in pages.iter_mut() {
        slot.copy_from(page);
    }
}

impl Slab {
    ghost use Rattle.slab_node.specs.Slab.{SlabState, IsSlab, HasSlot, written, took, gave_back, crashed, restarted, renewed, may_renew};
    ghost use Rattle.slab_node.specs.Free.{AllTaken, IsFirstFree};
    ghost use Rattle.slab_node.specs.Slabs.{has_room, slots_up};

    /// A slab that is up in its first incarnation, with every slot free.
    pub fn new(alloc: Global, id: SlabId, slots: u16) -> Result<Slab, WantOfMemory>
        ensures first { IfOk result (λ slab. (slab.id ≡ id) × (slab.incarnation ≡ 1) × (slab.up ≡ true)) }
        ensures slots { IfOk result (λ slab. slab.taken ≡ replicate slots false) }
        ensures size { IfOk result (λ slab. length slab.pages ≡ slots) }
        ensures blank { IfOk result (λ slab. slab.pages ≡ replicate slots (unmade 0)) }
        ensures rules { IfOk result IsSlab }
    {
        let blank = Page::blank(alloc, PageId::new(0).unwrap())?;
        let pages = copies(alloc, &blank, slots)?;
        let slots = Slots::new(alloc, slots)?;
        Ok(Slab {
            id,
            incarnation: Incarnation::new(1),
            up: true,
            pages,
            slots,
            blank,
        })
    }

    pub fn id(&self) -> SlabId
        ensures { result ≡ self.now.id }
    {
        self.id
    }

    pub fn incarnation(&self) -> Incarnation
        ensures { result ≡ self.now.incarnation }
    {
        self.incarnation
    }

    pub fn is_up(&self) -> bool
        ensures { result ≡ self.now.up }
    {
        self.up
    }

    /// The number of slots, free or taken.
    pub fn slots(&self) -> usize
        ensures count { result ≡ length self.now.pages }
        ensures rules { IsSlab self.now }
    {
        self.pages.len()
    }

    /// Whether the slab is up and has a free slot.
    pub fn has_room(&self) -> bool
        ensures { result ≡ has_room self.now }
    {
        self.up && self.slots.has_free()
    }

    /// The number of slots while the slab is up, else 0.
    pub fn live_slots(&self) -> u32
        ensures count { result ≡ slots_up self.now }
        ensures bound { result < 65536 }
    {
        if self.up { self.pages.len() as u32 } else { 0 }
    }

    /// Whether the slab keeps what stands at addresses of that incarnation.
    fn keeps(&self, incarnation: Incarnation) -> Result<(), SlabNo>
        ensures down { (result ≡ Err SlabNo.Down) ↔ (self.now.up ≡ false) }
        ensures old { (result ≡ Err SlabNo.OldSlab) ↔ ((self.now.up ≡ true) × (incarnation ≢ self.now.incarnation)) }
    {
        if !self.up {
            return Err(SlabNo::Down);
        }
        if incarnation != self.incarnation {
            return Err(SlabNo::OldSlab);
        }
        Ok(())
    }

    /// Whether the slab is up and the address names one of its slots in its incarnation.
    pub fn has_slot(&self, address: &Addr) -> bool
        ensures { IsTrue result ↔ HasSlot self.now address.now }
    {
        self.up
            && address.incarnation == self.incarnation
            && usize::from(address.slot) < self.pages.len()
    }

    /// Whether the slab, where it is up, has a next incarnation.
    pub fn may_renew(&self) -> bool
        ensures { result ≡ may_renew self.now }
    {
        !self.up || self.incarnation.number() < u64::MAX
    }

    /// Reads the page at the address.
    pub fn read(&self, address: Addr, into: &mut Page) -> Result<(), SlabNo>
        requires slab { address.slab ≡ self.now.id }
        requires slot { address.slot < length self.now.pages }
        ensures down { (result ≡ Err SlabNo.Down) ↔ (self.now.up ≡ false) }
        ensures old { (result ≡ Err SlabNo.OldSlab) ↔ ((self.now.up ≡ true) × (address.incarnation ≢ self.now.incarnation)) }
        ensures read { OnOk result (slice_get self.now.pages address.slot ≡ Some into.new) }
        ensures err { OnErr result (into.new ≡ into.old) }
    {
        self.keeps(address.incarnation)?;
        into.copy_from(&self.pages[usize::from(address.slot)]);
        Ok(())
    }

    /// Writes the page at the address.
    pub fn write(&mut self, address: Addr, page: &Page) -> Result<(), SlabNo>
        requires slab { address.slab ≡ self.old.id }
        requires slot { address.slot < length self.old.pages }
        ensures down { (result ≡ Err SlabNo.Down) ↔ (self.old.up ≡ false) }
        ensures old { (result ≡ Err SlabNo.OldSlab) ↔ ((self.old.up ≡ true) × (address.incarnation ≢ self.old.incarnation)) }
        ensures written { OnOk result (self.new ≡ written self.old address.slot page.now) }
        ensures size { length self.new.pages ≡ length self.old.pages }
        ensures err { OnErr result (self.new ≡ self.old) }
    {
        self.keeps(address.incarnation)?;
        self.pages[usize::from(address.slot)].copy_from(page);
        Ok(())
    }

    /// The address of a slot of the slab.
    fn address(&self, slot: usize) -> Addr
        requires { slot < length self.now.pages }
        ensures slab { result.slab ≡ self.now.id }
        ensures incarnation { result.incarnation ≡ self.now.incarnation }
        ensures slot { result.slot ≡ slot }
    {
        Addr {
            slab: self.id,
            incarnation: self.incarnation,
            slot: slot as u16,
        }
    }

    /// The address of the least free slot. None exactly where the slab is down or no slot is free.
    pub fn first_free(&self) -> Option<Addr>
        ensures down { self.now.up ≡ false → IfSome result (λ _. ⊥) }
        ensures least { self.now.up ≡ true → MatchOption result (AllTaken self.now.taken)
            (λ address. IsFirstFree self.now.taken address.slot) }
        ensures here { IfSome result (λ address. (address.slab ≡ self.now.id)
            × (address.incarnation ≡ self.now.incarnation)
            × (address.slot < length self.now.pages)) }
    {
        if !self.up {
            return None;
        }
        let slot = self.slots.first_free()?;
        Some(self.address(slot))
    }

    /// Takes the least free slot. None exactly where the slab is down or no slot is free; then nothing
    /// changes.
    pub fn take_slot(&mut self) -> Option<Addr>
        ensures down { self.old.up ≡ false → IfSome result (λ _. ⊥) }
        ensures least { self.old.up ≡ true → MatchOption result (AllTaken self.old.taken) (λ address. IsFirstFree self.old.taken address.slot) }
        ensures here { IfSome result (λ address. (address.slab ≡ self.old.id) × (address.incarnation ≡ self.old.incarnation) × (address.slot < length self.old.pages)) }
        ensures taken { self.new ≡ option_map_or (λ address. took self.old address.slot) result self.old }
    {
        if !self.up {
            return None;
        }
        let slot = self.slots.take()?;
        Some(Addr {
            slab: self.id,
            incarnation: self.incarnation,
            slot: slot as u16,
        })
    }

    /// Frees the slot at the address. Nothing changes where the slab keeps nothing at it.
    pub fn free_slot(&mut self, address: Addr)
        requires slab { address.slab ≡ self.old.id }
        requires slot { address.slot < length self.old.pages }
        ensures freed { self.old.up ≡ true → address.incarnation ≡ self.old.incarnation → self.new ≡ gave_back self.old address.slot }
        ensures down { self.old.up ≡ false → self.new ≡ self.old }
        ensures old { address.incarnation ≢ self.old.incarnation → self.new ≡ self.old }
    {
        if self.keeps(address.incarnation).is_ok() {
            self.slots.give_back(usize::from(address.slot));
        }
    }

    /// The slab goes down, and what it kept is lost.
    pub fn crash(&mut self)
        ensures { self.new ≡ crashed self.old }
    {
        self.up = false;
    }

    #[tactic(auto, using(crate::proofs::Copies::as_many))]
    /// The slab comes up in its next incarnation, with every slot free and blank.
    pub fn restart(&mut self)
        requires { self.old.incarnation < 2 ^ 64 - 1 }
        ensures restarted { self.new ≡ restarted self.old }
        ensures size { length self.new.pages ≡ length self.old.pages }
    {
        self.incarnation = Incarnation::new(self.incarnation.number() + 1);
        self.up = true;
        make_all(self.pages.as_mut_slice(), &self.blank);
        self.slots.give_back_all();
    }

    /// Where the slab is up, it takes its next incarnation, with every slot free and blank.
    pub fn renew(&mut self)
        requires { may_renew self.old ≡ true }
        ensures { self.new ≡ renewed self.old }
    {
        if self.up {
            self.restart();
        }
    }
}
