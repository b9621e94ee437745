ghost use Rattle.std.specs.Prelude.{◌≡◌, ◌↔◌, false, Err, IsOk};
ghost use Rattle.slab_node.specs.Slabs.{slab_at, IsSlotOf};

use rm_base::Addr;
use slab_node::{SlabNo, Slabs};

/// Whether the address is of a slot of a slab that is up, in its incarnation. Down exactly where that
/// slab is down, or there is none.
pub(crate) fn reach(slabs: &Slabs, address: &Addr) -> Result<(), SlabNo>
    ensures slot { IsOk result ↔ IsSlotOf slabs.now address.now }
    ensures down { (result ≡ Err SlabNo.Down) ↔ ((slab_at slabs.now address.now.slab).up ≡ false) }
{
    let Some(slab) = slabs.get(address.slab) else {
        return Err(SlabNo::Down);
    };
    if !slab.is_up() {
        return Err(SlabNo::Down);
    }
    let kept = slab.incarnation().number();
    let asked = address.incarnation.number();
    if asked != kept {
        return Err(SlabNo::OldSlab);
    }
    let slot = usize::from(address.slot);
    let slots = slab.slots();
    if slots <= slot {
        return Err(SlabNo::OldSlab);
    }
    Ok(())
}
