ghost use Rattle.std.specs.Prelude.{◌≡◌, ◌<◌, ◌↔◌, ◌&&◌, Some, true, false, IfOk, IfSome, OnErr};
ghost use Rattle.std.specs.Option.{option_map};
ghost use Rattle.home_model.specs.Entry.{takes_slot};
ghost use Rattle.slab_node.specs.Slabs.{NoRoom};
ghost use Rattle.home_tables.specs.Table.{address_number};
ghost use Rattle.home_tables.specs.Home.{entry_at};
ghost use Rattle.rmem_calls.specs.Giving.{gives, may_give, IsLeastPage, lesser};
ghost use Rattle.rmem_calls.specs.Registering.{TellsEntry, RegisterAnswers, IsPoolFull, IsFull};

use home_tables::{Access, Home};
use message_network::Reply;
use rm_base::{Addr, NodeId, PageId, WantOfMemory};
use slab_node::{Slab, Slabs};

/// The answer with the address, the bit and the floor of the page's entry.
fn told(home: &Home, page: PageId) -> Reply
    requires { takes_slot (entry_at home.now page) ≡ false }
    ensures { TellsEntry home.now page result }
{
    let entry = home.entry(page).unwrap();
    let addr = entry.addr.unwrap();
    Reply::Registered {
        addr,
        bit: entry.bit,
        floor: entry.floor,
    }
}

/// The slot of a page that has one.
fn slot_of(home: &Home, page: PageId) -> Addr
    requires { takes_slot (entry_at home.now page) ≡ false }
    ensures { (entry_at home.now page).address ≡ Some (address_number result) }
{
    let entry = home.entry(page).unwrap();
    entry.addr.unwrap()
}

/// The lesser of two pages, where they are there.
fn lesser(one: Option<PageId>, other: Option<PageId>) -> Option<PageId>
    ensures { result ≡ lesser one other }
{
    let Some(page) = one else {
        return other;
    };
    let Some(other_page) = other else {
        return Some(page);
    };
    if page.number() <= other_page.number() {
        Some(page)
    } else {
        Some(other_page)
    }
}

/// The least page that may be given away for its slot of the slab, where the slab is up.
fn idle_page_of(home: &Home, slab: &Slab) -> Option<PageId>
    ensures { IsLeastPage (λ p. gives home.now p slab.now) result }
{
    if slab.is_up() {
        home.idle_page(slab.id())
    } else {
        None
    }
}

/// The least page that may be given away for its slot of a live slab.
fn idle_page(home: &Home, slabs: &[Slab]) -> Option<PageId>
    ensures { IsLeastPage (may_give home.now slabs.now) result }
{
    let mut least = None;
    for slab in slabs {
        least = lesser(least, idle_page_of(home, slab));
    }
    least
}

/// A page that may be given away, and its slot.
#[derive(Clone, Copy, Debug)]
struct Given {
    page: PageId,
    slot: Addr,
}

/// The least page that may be given away for its slot of a live slab, with the slot.
fn page_to_give(home: &Home, slabs: &Slabs) -> Option<Given>
    ensures least { IsLeastPage (may_give home.now slabs.now)
        (option_map (λ given. given.page) result) }
    ensures slot { IfSome result (λ given. (entry_at home.now given.page).address
        ≡ Some (address_number given.slot)) }
    ensures page { IfSome result (λ given. given.page < 32768) }
{
    let page = idle_page(home, slabs.as_slice())?;
    let _number = page.number();
    let slot = slot_of(home, page);
    Some(Given { page, slot })
}

/// The page takes the slot of a page that is given away.
fn take_given(
    home: &mut Home,
    slabs: &Slabs,
    node: NodeId,
    page: PageId,
) -> Result<Reply, WantOfMemory>
    requires takes { takes_slot (entry_at home.old page) ≡ true }
    requires full { NoRoom slabs.now }
    ensures answer { IfOk result (RegisterAnswers home.old home.new slabs.now slabs.now node page) }
    ensures err { OnErr result (home.new ≡ home.old) }
{
    let Some(given) = page_to_give(home, slabs) else {
        return Ok(Reply::PoolFull {
            slots: slabs.live_slots(),
        });
    };
    home.replace(given.page, page, node, given.slot)?;
    Ok(told(home, page))
}

/// The page takes a slot.
fn take_slot(
    home: &mut Home,
    slabs: &mut Slabs,
    node: NodeId,
    page: PageId,
) -> Result<Reply, WantOfMemory>
    requires { takes_slot (entry_at home.old page) ≡ true }
    ensures answer { IfOk result (RegisterAnswers home.old home.new slabs.old slabs.new node page) }
    ensures err { OnErr result (home.new ≡ home.old) }
    ensures err_slabs { OnErr result (slabs.new ≡ slabs.old) }
{
    let Some(slot) = slabs.first_free() else {
        return take_given(home, slabs, node, page);
    };
    home.enter(page, node, slot)?;
    slabs.take_slot();
    Ok(told(home, page))
}

#[tactic(auto, using(crate::proofs::Answers::joins, crate::proofs::Answers::joins_answer, crate::proofs::Answers::full_when))]
/// The call `register`. The page gets an entry where it has none, and a slot where it has none, and the
/// node refers to it.
pub fn register(
    home: &mut Home,
    slabs: &mut Slabs,
    node: NodeId,
    page: PageId,
) -> Result<Reply, WantOfMemory>
    ensures answer { IfOk result (RegisterAnswers home.old home.new slabs.old slabs.new node page) }
    ensures full { IfOk result (λ reply. IsPoolFull reply ↔ IsFull home.old slabs.old page) }
    ensures err { OnErr result (home.new ≡ home.old) }
    ensures err_slabs { OnErr result (slabs.new ≡ slabs.old) }
{
    if home.takes_slot(page) {
        return take_slot(home, slabs, node, page);
    }
    home.access(page, Access::Refer(node));
    Ok(told(home, page))
}
