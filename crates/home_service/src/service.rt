ghost use Rattle.std.specs.Prelude.{◌≡◌, ◌≤◌, ◌<◌, ◌↔◌, ℕ, true, false, [], length, slice_get, Some, None, Err, IsTrue, IfOk, IfSome, IsNone, OnOk, OnErr};
ghost use Rattle.std.specs.Option.{option_map};
ghost use Rattle.call_model.specs.Servers.{Admission.New as NewCall, admit, new_server};
ghost use Rattle.message_network.specs.Labels.{labelled};
ghost use Rattle.message_network.specs.declared.calls.Reply.{Reply};
ghost use Rattle.home_model.specs.Entry.{struck, cleaned, released_by};
ghost use Rattle.slab_node.specs.Slabs.{slab_at, AreNew, IsSlotOf, wrote_at};
ghost use Rattle.home_tables.specs.Home.{kept, entry_at, ChangesAt};
ghost use Rattle.home_tables.specs.Order.{due_among};
ghost use Rattle.home_tables.specs.Pairs.{IsFirst};
ghost use Rattle.home_tables.specs.Trying.{Tries};
ghost use Rattle.rmem_calls.specs.Seeing.{seen};
ghost use Rattle.rmem_calls.specs.Seating.{AreSeated};
ghost use Rattle.home_service.specs.HomeSide.{side_of};
ghost use Rattle.home_service.specs.Serving.{Served, HandlesRegister, HandlesUnregister, HandlesInvalidate, OnlyHome, fenced_to, renewed};

use crate::expecting::{both, expect, take_out};
use crate::reaching::reach;
use crate::replying::same_reply;
use home_tables::{Access, Home};
use message_network::{Admit, Reply, Seen, Server};
use page_image::Page;
use page_latches::{Latch, Mode, NodeSet};
use rm_base::{
    Addr, CallNo, Epoch, Incarnation, Lsn, NodeId, PageId, PageList, Token, WantOfMemory,
};
use slab_node::{SlabNo, Slabs};
use std::alloc::Global;
use std::marker::Model;

/// The home's tables and the slabs behind one server. Contracts see what the server keeps, the tables
/// and the slabs.
#[derive(Drop)]
pub struct HomeService {
    server: Server,
    home: Home,
    slabs: Slabs,
    /// The nodes at which a page may be due. No page is due at another one.
    expected: NodeSet,
}

impl Model for HomeService {
    ghost use Rattle.message_network.specs.ServerView.{server_of};
    ghost use Rattle.home_service.specs.HomeSide.{Parts};
    ghost use Rattle.home_service.specs.Keeping.{IsKept};

    ghost Value = { Parts };

    ghost view = { λ s. record { server = s.server; home = s.home; slabs = s.slabs } };

    ghost invariant = { λ s. IsKept (server_of s.server) s.home s.slabs s.expected };
}

impl HomeService {
    /// A home of epoch 1 without entries, and so many slabs, each with so many slots, which are free.
    pub fn new(
        alloc: Global,
        slabs: u8,
        slots: u16,
        watermark: Lsn,
    ) -> Result<HomeService, WantOfMemory>
        requires { slabs ≤ 16 }
        ensures server { IfOk result (λ parts. (side_of parts).server ≡ new_server 1) }
        ensures none { IfOk result (λ parts. (side_of parts).home.entries ≡ []) }
        ensures watermark { IfOk result (λ parts. (side_of parts).home.watermark ≡ watermark) }
        ensures count { IfOk result (λ parts. length (side_of parts).slabs ≡ slabs) }
        ensures fresh { IfOk result (λ parts. AreNew (side_of parts).slabs slots) }
    {
        let home = Home::new(alloc, watermark)?;
        let slabs = Slabs::new(alloc, slabs, slots)?;
        Ok(HomeService {
            server: Server::new(Epoch::new(1)),
            home,
            slabs,
            expected: NodeSet::new(),
        })
    }

    /// The answer to the node's last call that was handled, if one is kept.
    fn again(&self, token: &Token) -> Option<Reply>
        ensures { result ≡ ((side_of self.now).server.memory token.now.node).reply }
    {
        match self.server.last(token.node) {
            Some(reply) => Some(same_reply(reply)),
            None => None,
        }
    }

    fn handle_register(
        &mut self,
        token: &Token,
        call: CallNo,
        page: PageId,
    ) -> Result<Option<Reply>, WantOfMemory>
        requires { admit (side_of self.old).server (labelled token.now call) ≡ NewCall }
        ensures handled { IfOk result (λ reply. (r : Reply) × (reply ≡ Some r)
            × HandlesRegister (labelled token.now call) page (side_of self.old) r (side_of self.new)) }
        ensures err { OnErr result (self.new ≡ self.old) }
    {
        let _slabs = self.slabs.as_slice();
        let reply = rmem_calls::register(&mut self.home, &mut self.slabs, token.node, page)?;
        self.server.keep(*token, call, same_reply(&reply));
        Ok(Some(reply))
    }

    /// The call `register`. It is handled once; asked again, it is answered as it was, which takes no
    /// memory. None exactly where it is an older call.
    pub fn register(
        &mut self,
        token: &Token,
        call: CallNo,
        page: PageId,
    ) -> Result<Option<Reply>, WantOfMemory>
        ensures served { IfOk result (λ reply. Served (HandlesRegister (labelled token.now call) page)
            (labelled token.now call) (side_of self.old) reply (side_of self.new)) }
        ensures err { OnErr result (self.new ≡ self.old) }
        ensures free { OnErr result (admit (side_of self.old).server (labelled token.now call) ≡ NewCall) }
    {
        match self.server.admit(*token, call) {
            Admit::New => self.handle_register(token, call, page),
            Admit::Again => Ok(self.again(token)),
            Admit::Old => Ok(None),
            Admit::Fenced(epoch) => Ok(Some(Reply::Fenced(epoch))),
        }
    }

    fn handle_unregister(&mut self, token: &Token, call: CallNo, page: PageId) -> Option<Reply>
        requires { admit (side_of self.old).server (labelled token.now call) ≡ NewCall }
        ensures { (r : Reply) × (result ≡ Some r)
            × HandlesUnregister (labelled token.now call) page (side_of self.old) r (side_of self.new) }
    {
        let reply = rmem_calls::unregister(&mut self.home, token.node, page);
        self.server.keep(*token, call, same_reply(&reply));
        Some(reply)
    }

    /// The call `unregister`. It is handled once; asked again, it is answered as it was. None exactly
    /// where it is an older call.
    pub fn unregister(&mut self, token: &Token, call: CallNo, page: PageId) -> Option<Reply>
        ensures { Served (HandlesUnregister (labelled token.now call) page)
            (labelled token.now call) (side_of self.old) result (side_of self.new) }
    {
        match self.server.admit(*token, call) {
            Admit::New => self.handle_unregister(token, call, page),
            Admit::Again => self.again(token),
            Admit::Old => None,
            Admit::Fenced(epoch) => Some(Reply::Fenced(epoch)),
        }
    }

    fn handle_invalidate(
        &mut self,
        token: &Token,
        call: CallNo,
        pages: &PageList,
        clear: &[NodeSet],
    ) -> Option<Reply>
        requires new { admit (side_of self.old).server (labelled token.now call) ≡ NewCall }
        requires beside { length clear.now ≡ length pages.now }
        ensures { (r : Reply) × (result ≡ Some r)
            × HandlesInvalidate (labelled token.now call) pages.now clear.now
            (side_of self.old) r (side_of self.new) }
    {
        let reply = rmem_calls::invalidate(&mut self.home, token.node, pages, clear);
        expect(&mut self.expected, &reply, clear);
        self.server.keep(*token, call, same_reply(&reply));
        Some(reply)
    }

    /// The call `invalidate`: the node changes the pages. Beside each page stand the nodes that may have
    /// a copy of it which they take for the latest. It is handled once; asked again, it is answered as it
    /// was. None exactly where it is an older call.
    pub fn invalidate(
        &mut self,
        token: &Token,
        call: CallNo,
        pages: &PageList,
        clear: &[NodeSet],
    ) -> Option<Reply>
        requires { length clear.now ≡ length pages.now }
        ensures { Served (HandlesInvalidate (labelled token.now call) pages.now clear.now)
            (labelled token.now call) (side_of self.old) result (side_of self.new) }
    {
        match self.server.admit(*token, call) {
            Admit::New => self.handle_invalidate(token, call, pages, clear),
            Admit::Again => self.again(token),
            Admit::Old => None,
            Admit::Fenced(epoch) => Some(Reply::Fenced(epoch)),
        }
    }

    /// The access `look`. None exactly where the page has no entry.
    pub fn look(&self, page: PageId) -> Option<Seen>
        ensures { result ≡ option_map seen (kept (side_of self.now).home page) }
    {
        rmem_calls::look(&self.home, page)
    }

    /// The access `latch`: a try of the page's latch. None exactly where the page has no entry.
    pub fn try_latch(&mut self, page: PageId, node: NodeId, mode: Mode) -> Option<Latch>
        ensures none { IsNone result ↔ ((entry_at (side_of self.old).home page).there ≡ false) }
        ensures tried { IfSome result (λ latch. Tries (side_of self.old).home (side_of self.new).home
            page node mode latch) }
        ensures same { IsNone result → self.new ≡ self.old }
        ensures rest { OnlyHome (side_of self.old) (side_of self.new) }
    {
        self.home.try_latch(page, node, mode)
    }

    /// The access `release`: the node holds the page's latch no longer.
    pub fn release(&mut self, page: PageId, node: NodeId)
        ensures entry { ChangesAt (side_of self.old).home (side_of self.new).home page
            (λ E. released_by E node) }
        ensures rest { OnlyHome (side_of self.old) (side_of self.new) }
    {
        self.home.access(page, Access::Release(node));
    }

    /// The access `clean`: the pool's copy of the page is the latest, with that LSN. False exactly where
    /// the page has no entry; then nothing changes.
    pub fn clean(&mut self, page: PageId, lsn: Lsn) -> bool
        ensures there { IsTrue result ↔ ((entry_at (side_of self.old).home page).there ≡ true) }
        ensures entry { ChangesAt (side_of self.old).home (side_of self.new).home page
            (λ E. cleaned E lsn) }
        ensures rest { OnlyHome (side_of self.old) (side_of self.new) }
    {
        rmem_calls::clean(&mut self.home, page, lsn)
    }

    /// The pair that the next turn would find: the first one of a page and a node that is up, by page and
    /// then node, of which the page is due at the node. None exactly where there is none.
    pub fn first_due(&self, up: &NodeSet) -> Option<(PageId, NodeId)>
        ensures { IsFirst (due_among (side_of self.now).home up.now) result }
    {
        let asked = both(up, &self.expected);
        self.home.first_due(&asked)
    }

    /// One turn of the home: the first pair of a page and a node that is up, by page and then node, is
    /// due no longer. None exactly where there is none. Where a turn has told so
    /// already, no page is asked again.
    pub fn turn(&mut self, up: &NodeSet) -> Option<(PageId, NodeId)>
        ensures first { IsFirst (due_among (side_of self.old).home up.now) result }
        ensures struck { IfSome result (λ pair. ChangesAt (side_of self.old).home (side_of self.new).home
            pair.0 (λ E. struck E pair.1)) }
        ensures same { IsNone result → self.new ≡ self.old }
        ensures rest { OnlyHome (side_of self.old) (side_of self.new) }
    {
        let asked = both(up, &self.expected);
        let Some(pair) = rmem_calls::home_turn(&mut self.home, &asked) else {
            take_out(&mut self.expected, &asked);
            return None;
        };
        Some(pair)
    }

    /// Reads what stands at the address. Down exactly where its slab is down or there is none; else
    /// OldSlab exactly where it is no slot of that slab in its incarnation.
    pub fn read(&self, address: &Addr, into: &mut Page) -> Result<(), SlabNo>
        ensures down { (result ≡ Err SlabNo.Down)
            ↔ ((slab_at (side_of self.now).slabs address.now.slab).up ≡ false) }
        ensures old { (result ≡ Err SlabNo.OldSlab)
            ↔ (((slab_at (side_of self.now).slabs address.now.slab).up ≡ true)
            × ¬ IsSlotOf (side_of self.now).slabs address.now) }
        ensures read { OnOk result
            (slice_get (slab_at (side_of self.now).slabs address.now.slab).pages address.now.slot
            ≡ Some into.new) }
        ensures err { OnErr result (into.new ≡ into.old) }
    {
        reach(&self.slabs, address)?;
        self.slabs.read(*address, into)
    }

    /// Writes the page at the address. Down exactly where its slab is down or there is none; else OldSlab
    /// exactly where it is no slot of that slab in its incarnation. In both nothing changes.
    pub fn write(&mut self, address: &Addr, page: &Page) -> Result<(), SlabNo>
        ensures down { (result ≡ Err SlabNo.Down)
            ↔ ((slab_at (side_of self.old).slabs address.now.slab).up ≡ false) }
        ensures old { (result ≡ Err SlabNo.OldSlab)
            ↔ (((slab_at (side_of self.old).slabs address.now.slab).up ≡ true)
            × ¬ IsSlotOf (side_of self.old).slabs address.now) }
        ensures written { OnOk result (side_of self.new
            ≡ record (side_of self.old) {
              slabs = wrote_at (side_of self.old).slabs address.now page.now;
            }) }
        ensures err { OnErr result (self.new ≡ self.old) }
    {
        reach(&self.slabs, address)?;
        self.slabs.write(*address, page)
    }

    /// From now on calls of an older epoch are fenced.
    pub fn fence(&mut self, epoch: Epoch)
        requires { (side_of self.old).server.epoch ≤ epoch }
        ensures { side_of self.new ≡ fenced_to (side_of self.old) epoch }
    {
        self.server.fence(epoch);
    }

    /// The node is of that incarnation. Where it is a newer one, nothing of it was handled.
    pub fn renew(&mut self, node: NodeId, incarnation: Incarnation)
        requires { ((side_of self.old).server.memory node).incarnation ≤ incarnation }
        ensures newer { ((side_of self.old).server.memory node).incarnation < incarnation
            → side_of self.new ≡ renewed (side_of self.old) node incarnation }
        ensures same { ((side_of self.old).server.memory node).incarnation ≡ incarnation
            → self.new ≡ self.old }
    {
        self.server.renew(node, incarnation);
    }

    /// The least epoch whose calls are handled.
    pub fn epoch(&self) -> Epoch
        ensures { result ≡ (side_of self.now).server.epoch }
    {
        self.server.epoch()
    }

    /// The floor of pages that have no entry.
    pub fn watermark(&self) -> Lsn
        ensures value { result ≡ (side_of self.now).home.watermark }

        // No two entries share an address, and each on a slab that is up is one of its incarnation.
        ensures seated { AreSeated (side_of self.now).home (side_of self.now).slabs }
    {
        self.home.watermark()
    }
}
