ghost use Rattle.std.specs.Prelude.{◌≡◌, ◌≤◌, ◌<◌, ℕ, true, false, length, replicate, slice_set, nat_lt, IfOk, IfSome, IsNone, MatchOption};
ghost use Rattle.std.specs.Option.{option_map_or};
ghost use Rattle.slab_node.specs.Free.{is_free, IsFirstFree, AllTaken, count_free};

use rm_base::WantOfMemory;
use std::alloc::Global;
use std::marker::Model;

/// Which slots of a slab are taken, with a place before which none is free and the number of the free
/// ones. Contracts see a test of each slot.
#[derive(Debug, Drop)]
pub(crate) struct Slots {
    taken: Vec<bool>,
    first: usize,
    free: usize,
}

impl Model for Slots {
    ghost use Rattle.std.specs.Prelude.{List, Bool};
    ghost use Rattle.slab_node.specs.Free.{IsCounted};

    ghost Value = { List Bool };

    ghost view = { λ slots. slots.taken.items };

    ghost invariant = { λ slots. IsCounted slots.taken.items slots.first slots.free };
}

/// The least free slot from `from` on.
fn first_free(taken: &[bool], from: usize) -> Option<usize>
    ensures none { IsNone result → (t : ℕ) → from ≤ t → is_free taken.now t ≡ false }
    ensures free { IfSome result (λ s. is_free taken.now s ≡ true) }
    ensures least { IfSome result (λ s. (t : ℕ) → from ≤ t → t < s → is_free taken.now t ≡ false) }
    ensures within { IfSome result (λ s. s < length taken.now) }
{
    for slot in from..taken.len() {
        if !taken[slot] {
            return Some(slot);
        }
    }
    None
}

fn free_all(taken: &mut Vec<bool>)
    ensures { taken.new.items ≡ replicate (length taken.old.items) false }
{
    taken.as_mut_slice().fill(false);
}

impl Slots {
    #[tactic(auto, using(crate::proofs::Counts::count_all_free))]
    /// Slots that are all free.
    pub fn new(alloc: Global, slots: u16) -> Result<Slots, WantOfMemory>
        ensures { IfOk result (λ free. free ≡ replicate slots false) }
    {
        let free = usize::from(slots);
        let taken = vec![in alloc; false; free]?;
        Ok(Slots {
            taken,
            first: 0,
            free,
        })
    }

    /// Whether a slot is free.
    pub fn has_free(&self) -> bool
        ensures { result ≡ nat_lt 0 (count_free self.now) }
    {
        self.free > 0
    }

    /// The least free slot. None exactly where none is free.
    pub fn first_free(&self) -> Option<usize>
        ensures least { MatchOption result (AllTaken self.now) (IsFirstFree self.now) }
        ensures within { IfSome result (λ s. s < length self.now) }
    {
        if self.free == 0 {
            return None;
        }
        first_free(self.taken.as_slice(), self.first)
    }

    /// Takes the least free slot. None exactly where none is free.
    pub fn take(&mut self) -> Option<usize>
        ensures least { MatchOption result (AllTaken self.old) (IsFirstFree self.old) }
        ensures within { IfSome result (λ s. s < length self.old) }
        ensures taken { self.new ≡ option_map_or (λ s. slice_set self.old s true) result self.old }
    {
        if self.free == 0 {
            return None;
        }
        let slot = first_free(self.taken.as_slice(), self.first)?;
        self.taken[slot] = true;
        self.first = slot + 1;
        self.free -= 1;
        Some(slot)
    }

    /// Frees the slot.
    pub fn give_back(&mut self, slot: usize)
        requires { slot < length self.old }
        ensures { self.new ≡ slice_set self.old slot false }
    {
        if self.taken[slot] {
            self.taken[slot] = false;
            self.free += 1;
            self.first = self.first.min(slot);
        }
    }

    /// Frees every slot.
    pub fn give_back_all(&mut self)
        ensures { self.new ≡ replicate (length self.old) false }
    {
        free_all(&mut self.taken);
        self.free = self.taken.len();
        self.first = 0;
    }
}
