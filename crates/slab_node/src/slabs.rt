ghost use Rattle.std.specs.Prelude.{◌≡◌, ◌≢◌, ◌↔◌, ◌≤◌, ◌<◌, ◌-◌, ◌^◌, ℕ, true, false, Some, Err, length, slice_get, IfOk, IfSome, IsNone, IsTrue, OnOk, OnErr, map};
ghost use Rattle.std.specs.List.{list_all};
ghost use Rattle.std.specs.Option.{option_map_or, option_copied};
ghost use Rattle.slab_node.specs.Slab.{may_renew, renewed};
ghost use Rattle.slab_node.specs.Slabs.{slab_at, has_room, NoRoom, IsLeastSlot, IsSlotOf, IsPlace, took_at, wrote_at, crashed_at, restarted_at, gave_back_at, live_slots, AreSlabs, AreNew};

use crate::slab::{Slab, SlabNo};
use page_image::Page;
use rm_base::{Addr, SlabId, WantOfMemory};
use std::alloc::Global;
use std::marker::Model;

/// The slabs of a cluster, each at the place of its number. Contracts see the list of them.
#[derive(Debug, Drop)]
pub struct Slabs {
    slabs: Vec<Slab>,
}

impl Model for Slabs {
    ghost use Rattle.std.specs.Prelude.{List};
    ghost use Rattle.slab_node.specs.Slab.{SlabState};
    ghost use Rattle.slab_node.specs.Slabs.{AreSlabs};

    ghost Value = { List SlabState };

    ghost view = { λ slabs. slabs.slabs.items };

    ghost invariant = { λ slabs. AreSlabs slabs.slabs.items };
}

fn renew_all(slabs: &mut [Slab])
    requires { list_all may_renew slabs.old ≡ true }
    ensures all { slabs.new ≡ map renewed slabs.old }
    ensures count { length slabs.new ≡ length slabs.old }
{
    for slab in slabs.iter_mut() {
        slab.renew();
    }
}

impl Slabs {
    #[tactic(auto, using(crate::proofs::SlabLists::no_slabs, crate::proofs::SlabLists::one_more_slab, crate::proofs::SlabLists::one_more_new))]
    /// So many slabs, at most 16, each with so many slots.
    pub fn new(alloc: Global, count: u8, slots: u16) -> Result<Slabs, WantOfMemory>
        requires { count ≤ 16 }
        ensures count { IfOk result (λ slabs. length slabs ≡ count) }
        ensures fresh { IfOk result (λ slabs. AreNew slabs slots) }
    {
        let mut slabs = Vec::with_capacity(alloc, usize::from(count))?;
        for number in 0..count {
            let id = SlabId::new(number).unwrap();
            slabs.push(Slab::new(alloc, id, slots)?)?;
        }
        Ok(Slabs { slabs })
    }

    /// The slabs, by their numbers.
    pub fn as_slice(&self) -> &[Slab]
        ensures slabs { result.now ≡ self.now }
        ensures rules { AreSlabs self.now }
    {
        self.slabs.as_slice()
    }

    /// The slab with that number.
    pub fn get(&self, id: SlabId) -> Option<&Slab>
        ensures { option_copied result ≡ slice_get self.now id }
    {
        self.slabs.get(usize::from(id.number()))
    }

    /// Whether the address is of a slot of a slab that is up, in its incarnation.
    pub fn is_slot(&self, address: &Addr) -> bool
        ensures slot { IsTrue result ↔ IsSlotOf self.now address.now }
        ensures rules { AreSlabs self.now }
    {
        let place = usize::from(address.slab.number());
        place < self.slabs.len() && self.slabs[place].has_slot(address)
    }

    #[tactic(auto, using(crate::proofs::SlabLists::room_at))]
    /// The place of the least live slab with a free slot.
    fn first_with_room(&self) -> Option<usize>
        ensures none { IsNone result → NoRoom self.now }
        ensures room { IfSome result (λ i. has_room (slab_at self.now i) ≡ true) }
        ensures least { IfSome result (λ i. (k : ℕ) → k < i
            → has_room (slab_at self.now k) ≡ false) }
        ensures within { IfSome result (λ i. i < length self.now) }
    {
        let slabs = self.as_slice();
        for (place, slab) in slabs.iter().enumerate() {
            if slab.has_room() {
                return Some(place);
            }
        }
        None
    }

    /// The least free slot of the least live slab that has one. None only where none has.
    pub fn first_free(&self) -> Option<Addr>
        ensures none { IsNone result → NoRoom self.now }
        ensures least { IfSome result (IsLeastSlot self.now) }
    {
        let place = self.first_with_room()?;
        self.slabs[place].first_free()
    }

    /// Takes the least free slot of the least live slab that has one. None exactly where none has; then
    /// nothing changes.
    pub fn take_slot(&mut self) -> Option<Addr>
        ensures none { IsNone result → NoRoom self.old }
        ensures least { IfSome result (IsLeastSlot self.old) }
        ensures taken { self.new ≡ option_map_or (took_at self.old) result self.old }
    {
        let place = self.first_with_room()?;
        self.slabs[place].take_slot()
    }

    /// Gives the slot back that was taken at the address.
    pub fn give_back(&mut self, address: Addr)
        requires { IsSlotOf self.old address }
        ensures { self.new ≡ gave_back_at self.old address }
    {
        let place = usize::from(address.slab.number());
        self.slabs[place].free_slot(address);
    }

    #[tactic(auto, using(std::proofs::lemmas::List::Sums::sum_by_more))]
    /// The number of slots of all slabs that are up.
    pub fn live_slots(&self) -> u32
        ensures { result ≡ live_slots self.now }
    {
        let _count = self.slabs.len();
        let mut slots = 0;
        for slab in &self.slabs {
            slots += slab.live_slots();
        }
        slots
    }

    /// Reads the page at the address, as its slab does.
    pub fn read(&self, address: Addr, into: &mut Page) -> Result<(), SlabNo>
        requires { IsPlace self.now address }
        ensures down { (result ≡ Err SlabNo.Down)
            ↔ ((slab_at self.now address.slab).up ≡ false) }
        ensures old { (result ≡ Err SlabNo.OldSlab) ↔ (((slab_at self.now address.slab).up ≡ true)
            × (address.incarnation ≢ (slab_at self.now address.slab).incarnation)) }
        ensures read { OnOk result (slice_get (slab_at self.now address.slab).pages address.slot
            ≡ Some into.new) }
        ensures err { OnErr result (into.new ≡ into.old) }
    {
        let place = usize::from(address.slab.number());
        self.slabs[place].read(address, into)
    }

    /// Writes the page at the address, as its slab does.
    pub fn write(&mut self, address: Addr, page: &Page) -> Result<(), SlabNo>
        requires { IsPlace self.old address }
        ensures down { (result ≡ Err SlabNo.Down)
            ↔ ((slab_at self.old address.slab).up ≡ false) }
        ensures old { (result ≡ Err SlabNo.OldSlab) ↔ (((slab_at self.old address.slab).up ≡ true)
            × (address.incarnation ≢ (slab_at self.old address.slab).incarnation)) }
        ensures written { OnOk result (self.new ≡ wrote_at self.old address page.now) }
        ensures err { OnErr result (self.new ≡ self.old) }
    {
        let place = usize::from(address.slab.number());
        self.slabs[place].write(address, page)
    }

    /// The slab goes down, and what it kept is lost.
    pub fn crash(&mut self, id: SlabId)
        requires { id < length self.old }
        ensures { self.new ≡ crashed_at self.old id }
    {
        self.slabs[usize::from(id.number())].crash();
    }

    /// The slab comes up in its next incarnation, with every slot free and blank.
    pub fn restart(&mut self, id: SlabId)
        requires slab { id < length self.old }
        requires incarnation { (slab_at self.old id).incarnation < 2 ^ 64 - 1 }
        ensures { self.new ≡ restarted_at self.old id }
    {
        self.slabs[usize::from(id.number())].restart();
    }

    /// Whether each slab that is up has a next incarnation.
    pub fn may_renew(&self) -> bool
        ensures { result ≡ list_all may_renew self.now }
    {
        self.slabs.iter().all(|slab| slab.may_renew())
    }

    /// Each slab that is up takes its next incarnation, with every slot free and blank.
    pub fn renew(&mut self)
        requires { list_all may_renew self.old ≡ true }
        ensures { self.new ≡ map renewed self.old }
    {
        renew_all(self.slabs.as_mut_slice());
    }
}
