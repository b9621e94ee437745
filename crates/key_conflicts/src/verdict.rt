//! What is known of keys that are tested.
ghost use Rattle.std.specs.Prelude.{◌≡◌, false, None, IfOk, OnErr, OnOk};
ghost use Rattle.key_conflicts.specs.Testing as testing;
ghost use Rattle.key_conflicts.specs.Testing.{put_by};

use rm_base::{Bytes, Duplicate, WantOfMemory};
use std::alloc::Global;
use std::cmp::Ordering;

/// What is met under a key: whether its newest version is in the writer's way, and whether it is there
/// and not deleted.
#[derive(Clone, Copy, Debug, PartialEq, Eq)]
pub struct Met {
    pub clash: bool,
    pub there: bool,
}

/// What is known of the keys that were tested: the least one whose newest version is in the writer's
/// way, and the first one that is there and not deleted.
#[derive(Debug, Drop)]
pub struct Tested {
    pub clash: Option<Bytes>,
    pub found: Option<Bytes>,
}

/// Nothing was met.
pub(crate) fn nothing_met() -> Met
    ensures { result ≡ testing.met false false }
{
    Met {
        clash: false,
        there: false,
    }
}

/// Nothing is known.
pub(crate) fn nothing_known() -> Tested
    ensures { result ≡ testing.nothing_known }
{
    Tested {
        clash: None,
        found: None,
    }
}

/// Whether a key is less than another, if there is one.
fn precedes(key: &Bytes, other: &Option<Bytes>) -> bool
    ensures { result ≡ testing.precedes key.now other.now }
{
    match other {
        None => true,
        Some(other) => key.as_slice().cmp(other.as_slice()) == Ordering::Less,
    }
}

/// A copy of the key, if it is wanted.
fn copy_if(alloc: Global, wanted: bool, key: &Bytes) -> Result<Option<Bytes>, WantOfMemory>
    ensures { IfOk result (λ copy. copy ≡ put_by wanted key.now None) }
{
    if !wanted {
        return Ok(None);
    }
    Ok(Some(key.copy(alloc)?))
}

/// Puts a key in the place of another, if there is one.
fn put_if(place: &mut Option<Bytes>, key: Option<Bytes>)
    ensures { place.new ≡ testing.put_if key place.old }
{
    match key {
        None => {}
        Some(key) => *place = Some(key),
    }
}

/// Adds what was met under a key.
#[tactic(auto, using(crate::proofs::StageLaws::noted))]
pub(crate) fn note(
    alloc: Global,
    tested: &mut Tested,
    key: &Bytes,
    met: Met,
) -> Result<(), WantOfMemory>
    ensures known { OnOk result (tested.new ≡ testing.with_key tested.old key.now met) }
    ensures same { OnErr result (tested.new ≡ tested.old) }
{
    let clash = copy_if(alloc, met.clash && precedes(key, &tested.clash), key)?;
    let found = copy_if(alloc, met.there && tested.found.is_none(), key)?;
    put_if(&mut tested.clash, clash);
    put_if(&mut tested.found, found);
    Ok(())
}
