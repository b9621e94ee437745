ghost use Rattle.std.specs.Prelude.{◌≡◌, Some, None, if◌then◌else◌};
ghost use Rattle.home_model.specs.Entry.{stays, swept};
ghost use Rattle.home_tables.specs.Table.{entry_of};
ghost use Rattle.home_tables.specs.Home.{entry_at};
ghost use Rattle.cluster_manager.specs.Freeing.{Frees, Goes, GoesAt};

use home_tables::{Entry, Home};
use rm_base::{Addr, Lsn};
use slab_node::Slabs;

/// The slot of the entry, where the sweep removes it.
fn freed(entry: &Entry, tail: Lsn) -> Option<Addr>
    ensures { result ≡ (if stays (entry_of (Some entry.now)) tail then None else entry.now.addr) }
{
    if entry.stays(tail) { None } else { entry.addr }
}

/// Frees the slot of the entry, where the sweep removes it.
fn free_slot(entry: &Entry, slabs: &mut Slabs, tail: Lsn)
    ensures { Frees (Goes (entry_of (Some entry.now)) tail) slabs.old slabs.new }
{
    let Some(address) = freed(entry, tail) else {
        return;
    };
    if slabs.is_slot(&address) {
        slabs.give_back(address);
    }
}

/// Frees the slots of the entries that the sweep removes.
fn free_slots(home: &Home, slabs: &mut Slabs, tail: Lsn)
    ensures { Frees (GoesAt home.now tail) slabs.old slabs.new }
{
    for (_, entry) in home.entries().iter() {
        free_slot(entry, slabs, tail);
    }
}

/// The sweep of a takeover at the tail: latches, references and due pairs go. Entries whose slot may not
/// hold what the tail has go whole, and their slots on slabs that are up are free again. The floor of
/// every page is the tail.
pub fn sweep(home: &mut Home, slabs: &mut Slabs, tail: Lsn)
    ensures entries { entry_at home.new ≡ (λ p. swept (entry_at home.old p) tail) }
    ensures watermark { home.new.watermark ≡ tail }
    ensures slots { Frees (GoesAt home.old tail) slabs.old slabs.new }
{
    free_slots(home, slabs, tail);
    home.sweep(tail);
}
