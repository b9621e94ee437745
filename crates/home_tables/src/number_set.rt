ghost use Rattle.std.specs.Prelude.{◌≡◌, ◌≤◌, ◌<◌, ◌+◌, ◌*◌, ◌/◌, ℕ, false, length, replicate, slice_set, IfOk, IfSome, IsNone, MatchOption};
ghost use Rattle.home_tables.specs.Numbers.{has, HasNone, IsLeast};

use rm_base::WantOfMemory;
use std::alloc::Global;
use std::marker::Model;

/// The numbers of one group.
const GROUP: usize = 128;

/// The groups of the numbers of one set of pages.
const GROUPS: usize = 256;

/// A set of numbers below a bound, from which the least of a range is found in few steps: groups of
/// numbers are marked where one of them may be there. Contracts see a test of each number.
#[derive(Debug, Drop)]
pub struct NumberSet {
    members: Vec<bool>,
    groups: Vec<bool>,
}

impl Model for NumberSet {
    ghost use Rattle.std.specs.Prelude.{List, Bool};
    ghost use Rattle.home_tables.specs.Numbers.{AreMarked};

    ghost Value = { List Bool };

    ghost view = { λ set. set.members.items };

    ghost invariant = { λ set. AreMarked set.members.items set.groups.items };
}

/// The least member from `low` up to `high`.
fn first_member(members: &[bool], low: usize, high: usize) -> Option<usize>
    requires within { high ≤ length members.now }
    ensures none { IsNone result → HasNone members.now low high }
    ensures least { IfSome result (IsLeast members.now low high) }
{
    for x in low..high {
        if members[x] {
            return Some(x);
        }
    }
    None
}

fn clear_all(marks: &mut Vec<bool>)
    ensures { marks.new.items ≡ replicate (length marks.old.items) false }
{
    marks.as_mut_slice().fill(false);
}

impl NumberSet {
    #[tactic(auto, using(crate::proofs::Numbers::none_marked, crate::proofs::Numbers::has_blank, crate::proofs::Numbers::long_enough))]
    /// A set without numbers, for `sets` sets of pages.
    pub fn with_sets(alloc: Global, sets: u8) -> Result<NumberSet, WantOfMemory>
        ensures bound { IfOk result (λ set. length set ≡ sets * 32768) }
        ensures none { IfOk result (λ set. (x : ℕ) → has set x ≡ false) }
    {
        let count = usize::from(sets) * GROUPS;
        let members = vec![in alloc; false; count * GROUP]?;
        let groups = vec![in alloc; false; count]?;
        Ok(NumberSet { members, groups })
    }

    #[tactic(auto, using(crate::proofs::Numbers::none_marked, crate::proofs::Numbers::has_blank, crate::proofs::Numbers::long_enough))]
    /// Takes every number out.
    pub fn clear(&mut self)
        ensures bound { length self.new ≡ length self.old }
        ensures none { (x : ℕ) → has self.new x ≡ false }
    {
        clear_all(&mut self.members);
        clear_all(&mut self.groups);
    }

    /// The bound of its numbers.
    pub fn bound(&self) -> usize
        ensures { result ≡ length self.now }
    {
        self.members.len()
    }

    pub fn contains(&self, x: usize) -> bool
        requires { x < length self.now }
        ensures { result ≡ has self.now x }
    {
        self.members[x]
    }

    #[tactic(auto, using(crate::proofs::Numbers::set_marked))]
    /// Puts the number in, or takes it out.
    pub fn set(&mut self, x: usize, member: bool)
        requires { x < length self.old }
        ensures { self.new ≡ slice_set self.old x member }
    {
        let group = x / GROUP;
        self.members[x] = member;
        let start = group * GROUP;
        let some = first_member(self.members.as_slice(), start, start + GROUP);
        self.groups[group] = some.is_some();
    }

    fn least_of_group(&self, group: usize) -> Option<usize>
        requires { group * 128 + 128 ≤ length self.now }
        ensures none { IsNone result → HasNone self.now (group * 128) (group * 128 + 128) }
        ensures least { IfSome result (IsLeast self.now (group * 128) (group * 128 + 128)) }
    {
        if !self.groups[group] {
            return None;
        }
        let start = group * GROUP;
        first_member(self.members.as_slice(), start, start + GROUP)
    }

    /// The least number of the set of pages with that index.
    pub fn least(&self, set: usize) -> Option<usize>
        requires { set * 32768 + 32768 ≤ length self.now }
        ensures none { IsNone result → HasNone self.now (set * 32768) (set * 32768 + 32768) }
        ensures least { IfSome result (IsLeast self.now (set * 32768) (set * 32768 + 32768)) }
    {
        let _bound = self.members.len();
        let first = set * GROUPS;
        for group in first..first + GROUPS {
            if let Some(x) = self.least_of_group(group) {
                return Some(x);
            }
        }
        None
    }
}
