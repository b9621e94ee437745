ghost use Rattle.std.specs.Prelude.{◌≡◌, true, map};
ghost use Rattle.std.specs.List.{list_all};
ghost use Rattle.home_model.specs.Entry.{no_entry};
ghost use Rattle.slab_node.specs.Slab.{may_renew, renewed};
ghost use Rattle.home_tables.specs.Home.{entry_at};
ghost use Rattle.home_tables.specs.Losing.{AllBecome, kept_from, lost_on};

use home_tables::Home;
use rm_base::{Lsn, NodeId, SlabId};
use slab_node::Slabs;

/// A node that is down is struck: it has neither a reference nor a due pair nor the latch of any page.
pub fn kick(home: &mut Home, node: NodeId)
    ensures { AllBecome home.old home.new (kept_from node) }
{
    home.release_all(node);
}

/// A slab that is down is dropped: each page that had its slot there has none.
pub fn drop_slab(home: &mut Home, slab: SlabId)
    ensures { AllBecome home.old home.new (lost_on slab) }
{
    home.drop_slab(slab);
}

#[tactic(auto, using(crate::proofs::Empty::no_entries))]
/// The home is renewed: no page has an entry, and the floor of all pages is the tail. Each slab that is
/// up takes its next incarnation, with every slot free and blank.
pub fn renew_home(home: &mut Home, slabs: &mut Slabs, tail: Lsn)
    requires { list_all may_renew slabs.old ≡ true }
    ensures entries { entry_at home.new ≡ (λ p. no_entry) }
    ensures watermark { home.new.watermark ≡ tail }
    ensures slabs { slabs.new ≡ map renewed slabs.old }
{
    home.clear(tail);
    slabs.renew();
}
