ghost use Rattle.std.specs.Prelude.{◌≡◌, [], ◌∷◌, ◌++◌, length, ◌<◌, ◌≤◌, ◌↔◌, slice_get, IsOk, IsSome, IsTrue, OnOk, OnErr};
ghost use Rattle.std.specs.List.{remove};
ghost use Rattle.std.specs.Option.{option_copied, option_copied_mut, option_to_list};
ghost use types.Logic.{sem};
ghost use Rattle.rm_base.specs.Lending.{LendsFewItem};

use crate::errors::WantOfMemory;
use crate::items::Duplicate;
use arrayvec::ArrayVec;
use std::alloc::Global;
use std::marker::Model;

/// A list of at most `N` items, kept inline. Contracts see the list of its items.
#[derive(Debug, Drop)]
pub struct Few<T, const N: usize> {
    items: ArrayVec<T, N>,
}

impl<T, const N: usize> Model for Few<T, N> {
    ghost use Rattle.std.specs.Prelude.{List};
    ghost use Rattle.std.specs.Coded.{coded_list};

    ghost Value = { List T };

    ghost coded = { coded_list T.code };

    ghost view = { λ few. few.items.items };
}

impl<T: Default, const N: usize> Few<T, N> {
    pub fn new() -> Few<T, N>
        ensures { result ≡ [] }
    {
        Few {
            items: ArrayVec::new(),
        }
    }
}

impl<T, const N: usize> Few<T, N> {
    pub fn as_slice(&self) -> &[T]
        ensures items { result.now ≡ self.now }
        ensures bound { length self.now ≤ N }
    {
        self.items.as_slice()
    }

    pub fn len(&self) -> usize
        ensures { result ≡ length self.now }
    {
        self.items.len()
    }

    pub fn is_empty(&self) -> bool
        ensures { IsTrue result ↔ (self.now ≡ []) }
    {
        self.items.is_empty()
    }

    pub fn get(&self, at: usize) -> Option<&T>
        ensures { option_copied result ≡ slice_get self.now at }
    {
        self.items.as_slice().get(at)
    }

    /// The item at the place, to write to. What is written stands at the place; all else stays.
    pub fn get_mut(&mut self, at: usize) -> Option<&mut T>
        ensures* writes_back { sem 𝓛 (LendsFewItem T.row N.row self.entry at result) }
        ensures value { option_copied_mut result ≡ slice_get self.old at }
    {
        self.items.get_mut(at)
    }
}

impl<T: Default, const N: usize> Default for Few<T, N> {
    /// The empty list.
    fn default() -> Few<T, N>
        ensures { result ≡ [] }
    {
        Few::new()
    }
}

impl<T: Default + Drop, const N: usize> Few<T, N> {
    /// Takes the last item off. None exactly where the list is empty.
    pub fn pop(&mut self) -> Option<T>
        ensures last { self.old ≡ self.new ++ option_to_list result }
        ensures some { IsSome result ↔ (0 < length self.old) }
    {
        self.items.pop()
    }

    /// Takes the item at the place out; those behind it move up.
    pub fn remove(&mut self, at: usize) -> T
        requires { at < length self.old }
        ensures value { slice_get self.old at ≡ Some result }
        ensures rest { self.new ≡ remove self.old at }
    {
        self.items.remove(at)
    }
}

/// The list is full.
#[derive(Clone, Copy, Debug, PartialEq, Eq)]
pub struct Full;

impl<T: Drop, const N: usize> Few<T, N> {
    /// Refused exactly where the list is full, which then stays as it was.
    pub fn try_push(&mut self, item: T) -> Result<(), Full>
        ensures room { IsOk result ↔ (length self.old < N) }
        ensures ok { OnOk result (self.new ≡ self.old ++ item ∷ []) }
        ensures err { OnErr result (self.new ≡ self.old) }
    {
        match self.items.try_push(item) {
            Ok(()) => Ok(()),
            Err(_) => Err(Full),
        }
    }
}

impl<T: Duplicate + Default, const N: usize> Duplicate for Few<T, N> {
    fn copy(&self, alloc: Global) -> Result<Few<T, N>, WantOfMemory> {
        let mut copied = Few::new();
        for item in self.as_slice() {
            copied.items.push(item.copy(alloc)?);
        }
        Ok(copied)
    }
}
