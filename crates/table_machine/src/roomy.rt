ghost use Rattle.std.specs.Prelude.{◌≡◌, ◌+◌, ◌-◌, ◌<◌, ◌≤◌, [], ◌∷◌, ◌++◌, length, OnOk, OnErr, option_to_list, slice_set};

use rm_base::WantOfMemory;
use std::alloc::Global;
use std::marker::Model;

/// A list that grows and tells how many more items it takes without memory. Contracts see its items and
/// that number.
#[derive(Debug, Drop)]
pub struct Roomy<T> {
    items: Vec<T>,
}

impl<T> Model for Roomy<T> {
    ghost use Rattle.std.specs.Prelude.{◌-◌};
    ghost use Rattle.table_machine.specs.Room.{Room};

    ghost Value = { Room T };

    ghost view = { λ it. record { items = it.items.items; spare = it.items.cap - it.items.len } };
}

impl<T> Roomy<T> {
    /// Keeps the allocator, and takes no memory yet.
    pub fn new(alloc: Global) -> Roomy<T>
        ensures { result.items ≡ [] }
    {
        Roomy {
            items: Vec::new(alloc),
        }
    }

    pub fn len(&self) -> usize
        ensures { result ≡ length self.now.items }
    {
        self.items.len()
    }

    pub fn as_slice(&self) -> &[T]
        ensures { result.now ≡ self.now.items }
    {
        self.items.as_slice()
    }

    /// How many items `push_spare` can add.
    pub fn spare(&self) -> usize
        ensures { result ≡ self.now.spare }
    {
        self.items.capacity() - self.items.len()
    }

    /// Makes the spare at least `n`.
    pub fn reserve(&mut self, n: usize) -> Result<(), WantOfMemory>
        ensures items { self.new.items ≡ self.old.items }
        ensures ok { OnOk result (n ≤ self.new.spare) }
        ensures spare { self.old.spare ≤ self.new.spare }
    {
        self.items.try_reserve(n)?;
        Ok(())
    }

    /// Takes the first item out.
    pub fn take_first(&mut self) -> Option<T>
        ensures first { self.old.items ≡ option_to_list result ++ self.new.items }
        ensures none { result ≡ None → self.old.items ≡ [] }
        ensures spare { self.old.spare ≤ self.new.spare }
    {
        if self.items.is_empty() {
            return None;
        }
        Some(self.items.remove(0))
    }
}

impl<T: Drop> Roomy<T> {
    pub fn push(&mut self, item: T) -> Result<(), WantOfMemory>
        ensures ok { OnOk result (self.new.items ≡ self.old.items ++ item ∷ []) }
        ensures err { OnErr result (self.new.items ≡ self.old.items) }
        ensures spare { self.old.spare ≤ self.new.spare + 1 }
    {
        self.items.push(item)?;
        Ok(())
    }

    /// The item takes the place of the one there. Nothing happens where there is none.
    pub fn set(&mut self, at: usize, item: T)
        ensures items { self.new.items ≡ slice_set self.old.items at item }
        ensures spare { self.old.spare ≤ self.new.spare }
    {
        if let Some(place) = self.items.get_mut(at) {
            *place = item;
        }
    }

    /// Takes no memory.
    pub fn push_spare(&mut self, item: T)
        requires { 0 < self.old.spare }
        ensures items { self.new.items ≡ self.old.items ++ item ∷ [] }
        ensures spare { self.old.spare ≤ self.new.spare + 1 }
    {
        match self.items.push(item) {
            Ok(()) => {}
            Err(_) => unreachable!(),
        }
    }
}
