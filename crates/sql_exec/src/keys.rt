ghost use Rattle.std.specs.Prelude.{◌≡◌, [], ◌∷◌, ◌++◌, List, IfOk, OnOk, not, refl};
ghost use Rattle.std.specs.List.{list_any};
ghost use Rattle.std.specs.Ordering.{as_partial_cmp, eq_by_cmp};
ghost use Rattle.std.specs.Cmp.{eq_by_cmp_equiv, on_total, partial_equiv_from_equiv, partial_order_from_total};
ghost use Rattle.sql_values.proofs.OrderLaws.{total};
ghost use Rattle.sql_exec.specs.Changes.{first_repeat, is_same};
ghost use Rattle.sql_exec.specs.Seen.{HasKeys, key_cmp};

use rm_base::{Duplicate, WantOfMemory};
use sql_values::{Row, Value, order};
use std::alloc::Global;
use std::cmp::Ordering;
use std::collections::BTreeSet;

/// A value in a set of keys, which the order of values sorts.
#[derive(Drop)]
struct Key(Value);

impl PartialEq for Key {
    ghost eq = { eq_by_cmp key_cmp };

    ghost laws = { partial_equiv_from_equiv (eq_by_cmp_equiv (on_total (λ k. k.0) total)) };

    fn eq(&self, other: &Key) -> bool {
        self.cmp(other).is_eq()
    }
}

impl Eq for Key {
    ghost laws = { eq_by_cmp_equiv (on_total (λ k. k.0) total) };
}

impl PartialOrd for Key {
    ghost partial_cmp = { as_partial_cmp key_cmp };

    ghost laws = { partial_order_from_total (on_total (λ k. k.0) total) };

    fn partial_cmp(&self, other: &Key) -> Option<Ordering> {
        Some(self.cmp(other))
    }
}

impl Ord for Key {
    ghost cmp = { key_cmp };

    ghost total = { on_total (λ k. k.0) total };

    ghost matches_partial_cmp = { λ a b. refl };

    ghost matches_eq = { λ a b. refl };

    fn cmp(&self, other: &Key) -> Ordering {
        order(&self.0, &other.0)
    }
}

/// The first key that was seen or is one of those before it.
pub fn repeat(alloc: Global, seen: Row, keys: &Row) -> Result<Option<Value>, WantOfMemory>
    ensures { IfOk result (λ r. r ≡ first_repeat seen keys.now) }
{
    repeat_after(alloc, set_of(alloc, seen)?, keys)
}

fn repeat_after(
    alloc: Global,
    seen: BTreeSet<Key>,
    keys: &Row,
) -> Result<Option<Value>, WantOfMemory>
    ensures { (before : List Value) → HasKeys seen before → IfOk result (λ r. r ≡ first_repeat before keys.now) }
{
    let mut seen = seen;
    for key in keys.as_slice() {
        if !add(&mut seen, key.copy(alloc)?)? {
            return Ok(Some(key.copy(alloc)?));
        }
    }
    Ok(None)
}

fn set_of(alloc: Global, keys: Row) -> Result<BTreeSet<Key>, WantOfMemory>
    ensures { IfOk result (λ set. HasKeys set keys) }
{
    let mut set = BTreeSet::new(alloc);
    for key in keys.into_vec() {
        add(&mut set, key)?;
    }
    Ok(set)
}

/// Whether the key is new to the set, which has it from now on.
#[tactic(auto, using(crate::proofs::SeenLaws::one_more))]
fn add(set: &mut BTreeSet<Key>, key: Value) -> Result<bool, WantOfMemory>
    ensures new { (keys : List Value) → HasKeys set.old keys → IfOk result (λ new. new ≡ not (list_any (is_same key) keys)) }
    ensures more { (keys : List Value) → HasKeys set.old keys → OnOk result (HasKeys set.new (keys ++ key ∷ [])) }
{
    Ok(set.insert(Key(key))?)
}
