ghost use Rattle.std.specs.Prelude.{◌≡◌, ◌↔◌, true, IsTrue, IfSome, IsNone};
ghost use Rattle.std.specs.Option.{option_map};
ghost use Rattle.home_model.specs.Entry.{unregistered, struck, cleaned};
ghost use Rattle.home_tables.specs.Home.{kept, entry_at, ChangesAt};
ghost use Rattle.home_tables.specs.Order.{due_among};
ghost use Rattle.home_tables.specs.Pairs.{IsFirst};
ghost use Rattle.rmem_calls.specs.Seeing.{seen};

use home_tables::{Access, Home};
use message_network::{Reply, Seen};
use page_latches::NodeSet;
use rm_base::{Lsn, NodeId, PageId};

/// The call `unregister`: the node refers to the page no longer, also where it did not.
pub fn unregister(home: &mut Home, node: NodeId, page: PageId) -> Reply
    ensures answer { result ≡ Reply.Unregistered }
    ensures entry { ChangesAt home.old home.new page (λ E. unregistered E node) }
{
    home.access(page, Access::Unregister(node));
    Reply::Unregistered
}

/// One turn of the home: the first pair of a page and a node that is up, by page and then node, is due
/// no longer, since the node's local bit of the page is set. None exactly where there is none.
pub fn home_turn(home: &mut Home, up: &NodeSet) -> Option<(PageId, NodeId)>
    ensures first { IsFirst (due_among home.old up.now) result }
    ensures struck { IfSome result (λ pair. ChangesAt home.old home.new pair.0
        (λ E. struck E pair.1)) }
    ensures same { IsNone result → home.new ≡ home.old }
{
    home.turn(up)
}

/// The access `look`. None exactly where the page has no entry.
pub fn look(home: &Home, page: PageId) -> Option<Seen>
    ensures { result ≡ option_map seen (kept home.now page) }
{
    let entry = home.entry(page)?;
    Some(Seen {
        addr: entry.addr,
        bit: entry.bit,
        lsn: entry.lsn,
        floor: entry.floor,
    })
}

/// The access `clean`: the pool's copy of the page is the latest, with that LSN. False exactly where
/// the page has no entry; then nothing changes.
pub fn clean(home: &mut Home, page: PageId, lsn: Lsn) -> bool
    ensures there { IsTrue result ↔ ((entry_at home.old page).there ≡ true) }
    ensures entry { ChangesAt home.old home.new page (λ E. cleaned E lsn) }
{
    let there = home.entry(page).is_some();
    home.access(page, Access::Clean(lsn));
    there
}
