ghost use Rattle.std.specs.Prelude.{◌≡◌, ◌≢◌, ◌≤◌, ◌<◌, ◌/◌, ℕ, true, [], length, IsTrue, ◌↔◌, Some, IfOk, OnOk, OnErr};
ghost use Rattle.call_model.specs.Servers.{Admission.New as NewCall, admit, new_server};
ghost use Rattle.message_network.specs.Labels.{labelled};
ghost use Rattle.message_network.specs.declared.calls.Reply.{Reply};
ghost use Rattle.redo_record.specs.Spelling.{Spells};
ghost use Rattle.log_chunks.specs.Log.{answer_to, is_kept, tail_of};
ghost use Rattle.storage_service.specs.Storage.{storage_of, Brings, IsBehind, get_answer};
ghost use Rattle.storage_service.specs.Serving.{Served, HandlesAppend, HandlesGet, MayAppend, fenced_to, renewed};
ghost use Rattle.storage_service.specs.Shipping.{shipped, one_more, ShipsAt, IsForward, folded};

use crate::noting::{NotedLog, chunk_place};
use crate::shipping::{bring_next, bring_to_end, without_done};
use crate::starting::{CHUNKS, behind_after, blank_chunks};
use message_model::{Appended, Got};
use message_network::{Admit, Reply, Server};
use page_chunks::PageChunk;
use rm_base::{CallNo, Duplicate, Epoch, Incarnation, Lsn, NodeId, PageId, Token, WantOfMemory};
use std::alloc::Global;
use std::marker::Model;

/// The log store and the chunks of pages behind one server. Contracts see what the server keeps, the
/// log, how far each chunk has got it, and the records that wait for each page.
#[derive(Drop)]
pub struct StorageService {
    server: Server,
    log: NotedLog,
    chunks: Vec<PageChunk>,
    /// How many chunks have not got the whole log.
    behind: usize,
}

impl Model for StorageService {
    ghost use Rattle.message_network.specs.ServerView.{server_of};
    ghost use Rattle.storage_service.specs.Storage.{Parts};
    ghost use Rattle.storage_service.specs.Keeping.{IsKept};

    ghost Value = { Parts };

    ghost view = { λ s. record { server = s.server; log = s.log; chunks = s.chunks.items } };

    ghost invariant = { λ s. IsKept (server_of s.server).epoch s.log s.chunks.items s.behind };
}

fn appended_reply(appended: &Appended) -> Reply
    ensures { result ≡ Reply.Appended appended.now }
{
    Reply::Appended(*appended)
}

impl StorageService {
    /// Storage of epoch 1 with a log, of which no chunk has got a group.
    pub fn new(alloc: Global, log: &[u8]) -> Result<StorageService, WantOfMemory>
        requires { Brings [] log.now }
        ensures server { IfOk result (λ parts. (storage_of parts).server ≡ new_server 1) }
        ensures epoch { IfOk result (λ parts. (storage_of parts).log.epoch ≡ 1) }
        ensures log { IfOk result (λ parts. Spells log.now (storage_of parts).log.groups) }
        ensures none { IfOk result (λ parts. (c : ℕ) → (storage_of parts).applied c ≡ 0) }
        ensures waiting { IfOk result (λ parts. (p : ℕ) → (storage_of parts).waiting p ≡ []) }
    {
        let log = NotedLog::new(alloc, log)?;
        let chunks = blank_chunks(alloc)?;
        let behind = behind_after(Lsn::new(0), log.last(), 0);
        Ok(StorageService {
            server: Server::new(Epoch::new(1)),
            log,
            chunks,
            behind,
        })
    }

    /// The answer to the node's last call that was handled, if one is kept.
    fn again(&self, alloc: Global, token: &Token) -> Result<Option<Reply>, WantOfMemory>
        ensures { IfOk result (λ reply. reply
            ≡ ((storage_of self.now).server.memory token.now.node).reply) }
    {
        match self.server.last(token.node) {
            Some(reply) => Ok(Some(reply.copy(alloc)?)),
            None => Ok(None),
        }
    }

    fn handle_append(
        &mut self,
        alloc: Global,
        token: &Token,
        call: CallNo,
        offset: u64,
        bytes: &[u8],
    ) -> Result<Option<Reply>, WantOfMemory>
        requires new { admit (storage_of self.old).server (labelled token.now call) ≡ NewCall }
        requires brings { is_kept (answer_to (storage_of self.old).log token.now.epoch offset (length bytes.now)) ≡ true
            → Brings (storage_of self.old).log.groups bytes.now }
        ensures handled { IfOk result (λ reply. (r : Reply) × (reply ≡ Some r)
            × HandlesAppend (labelled token.now call) offset bytes.now
            (storage_of self.old) r (storage_of self.new)) }
        ensures err { OnErr result (self.new ≡ self.old) }
    {
        let before = self.log.last();
        let appended = self.log.append(alloc, token.epoch, offset, bytes)?;
        let behind = behind_after(before, self.log.last(), self.behind);
        self.behind = behind;
        self.server.keep(*token, call, appended_reply(&appended));
        Ok(Some(appended_reply(&appended)))
    }

    /// The call `append`: the bytes are to stand in the log from the offset on. It is handled once; asked
    /// again, it is answered as it was. None exactly where it is an older call.
    pub fn append(
        &mut self,
        alloc: Global,
        token: &Token,
        call: CallNo,
        offset: u64,
        bytes: &[u8],
    ) -> Result<Option<Reply>, WantOfMemory>
        requires { MayAppend (storage_of self.old) (labelled token.now call) offset bytes.now }
        ensures served { IfOk result (λ reply. Served
            (HandlesAppend (labelled token.now call) offset bytes.now)
            (labelled token.now call) (storage_of self.old) reply (storage_of self.new)) }
        ensures err { OnErr result (self.new ≡ self.old) }
    {
        match self.server.admit(*token, call) {
            Admit::New => self.handle_append(alloc, token, call, offset, bytes),
            Admit::Again => self.again(alloc, token),
            Admit::Old => Ok(None),
            Admit::Fenced(epoch) => Ok(Some(Reply::Fenced(epoch))),
        }
    }

    /// The page as its chunk has it, unless the chunk has not got the groups up to the floor.
    fn image(&self, alloc: Global, page: PageId, floor: Lsn) -> Result<Got, WantOfMemory>
        ensures { IfOk result (λ got. got ≡ get_answer (storage_of self.now) page floor) }
    {
        let place = chunk_place(page);
        self.chunks[place].get(alloc, page, floor)
    }

    fn handle_get(
        &mut self,
        alloc: Global,
        token: &Token,
        call: CallNo,
        page: PageId,
        floor: Lsn,
    ) -> Result<Option<Reply>, WantOfMemory>
        requires { admit (storage_of self.old).server (labelled token.now call) ≡ NewCall }
        ensures handled { IfOk result (λ reply. (r : Reply) × (reply ≡ Some r)
            × HandlesGet (labelled token.now call) page floor
            (storage_of self.old) r (storage_of self.new)) }
        ensures err { OnErr result (self.new ≡ self.old) }
    {
        let reply = Reply::Got(self.image(alloc, page, floor)?);
        let kept = reply.copy(alloc)?;
        self.server.keep(*token, call, kept);
        Ok(Some(reply))
    }

    /// The call `get`: the page with all groups up to the floor, or later ones. It is handled once; asked
    /// again, it is answered as it was. None exactly where it is an older call.
    pub fn get(
        &mut self,
        alloc: Global,
        token: &Token,
        call: CallNo,
        page: PageId,
        floor: Lsn,
    ) -> Result<Option<Reply>, WantOfMemory>
        ensures served { IfOk result (λ reply. Served (HandlesGet (labelled token.now call) page floor)
            (labelled token.now call) (storage_of self.old) reply (storage_of self.new)) }
        ensures err { OnErr result (self.new ≡ self.old) }
    {
        match self.server.admit(*token, call) {
            Admit::New => self.handle_get(alloc, token, call, page, floor),
            Admit::Again => self.again(alloc, token),
            Admit::Old => Ok(None),
            Admit::Fenced(epoch) => Ok(Some(Reply::Fenced(epoch))),
        }
    }

    /// Whether the chunk has not got the whole log.
    pub fn is_behind(&self, c: u8) -> bool
        requires { c < 128 }
        ensures { IsTrue result ↔ IsBehind (storage_of self.now) c }
    {
        self.chunks[usize::from(c)].applied() < self.log.last()
    }

    /// Whether some chunk has not got the whole log. No chunk is asked.
    pub fn has_behind(&self) -> bool
        ensures { IsTrue result ↔ ((c : ℕ) × (c < 128) × IsBehind (storage_of self.now) c) }
    {
        self.behind != 0
    }

    /// Hands the chunk the next group.
    pub fn ship_one(&mut self, alloc: Global, c: u8) -> Result<(), WantOfMemory>
        requires chunk { c < 128 }
        requires behind { IsBehind (storage_of self.old) c }
        ensures ok { OnOk result (storage_of self.new
            ≡ shipped (storage_of self.old) (one_more (storage_of self.old) c)) }
        ensures err { OnErr result (self.new ≡ self.old) }
    {
        let place = usize::from(c);
        bring_next(&mut self.chunks[place], alloc, &self.log)?;
        let behind = without_done(self.behind, &self.chunks[place], self.log.last());
        self.behind = behind;
        Ok(())
    }

    /// Hands the chunk the rest of the log. Where memory is wanting, it keeps what it got.
    pub fn ship_rest(&mut self, alloc: Global, c: u8) -> Result<(), WantOfMemory>
        requires { c < 128 }
        ensures ships { ShipsAt c (storage_of self.old) (storage_of self.new) }
        ensures ok { OnOk result ((storage_of self.new).applied c
            ≡ length (storage_of self.old).log.groups) }
    {
        let place = usize::from(c);
        let applied = self.chunks[place].applied().number();
        if self.log.last().number() <= applied {
            return Ok(());
        }
        let shipped = bring_to_end(&mut self.chunks[place], alloc, &self.log);
        let behind = without_done(self.behind, &self.chunks[place], self.log.last());
        self.behind = behind;
        shipped
    }

    /// Hands each chunk the rest of the log. Where memory is wanting, the chunks keep what they got.
    pub fn ship_all(&mut self, alloc: Global) -> Result<(), WantOfMemory>
        ensures forward { IsForward (storage_of self.old) (storage_of self.new) }
        ensures ok { OnOk result ((c : ℕ) → c < 128
            → (storage_of self.new).applied c ≡ length (storage_of self.old).log.groups) }
    {
        if self.behind == 0 {
            return Ok(());
        }
        for c in 0..CHUNKS {
            self.ship_rest(alloc, c)?;
        }
        Ok(())
    }

    /// Whether records wait for the page that are not folded.
    pub fn waits(&self, page: PageId) -> bool
        ensures { IsTrue result ↔ ((storage_of self.now).waiting page ≢ []) }
    {
        let place = chunk_place(page);
        self.chunks[place].pending(page)
    }

    /// Folds the records that wait for the page into its base image.
    pub fn fold(&mut self, alloc: Global, page: PageId) -> Result<(), WantOfMemory>
        ensures ok { OnOk result (storage_of self.new ≡ folded (storage_of self.old) page) }
        ensures err { OnErr result (self.new ≡ self.old) }
    {
        let place = chunk_place(page);
        self.chunks[place].fold(alloc, page)
    }

    /// From now on calls of an older epoch are fenced.
    pub fn fence(&mut self, epoch: Epoch)
        requires { (storage_of self.old).server.epoch ≤ epoch }
        ensures { storage_of self.new ≡ fenced_to (storage_of self.old) epoch }
    {
        self.server.fence(epoch);
        self.log.fence(epoch);
    }

    /// The node is of that incarnation. Where it is a newer one, nothing of it was handled.
    pub fn renew(&mut self, node: NodeId, incarnation: Incarnation)
        requires { ((storage_of self.old).server.memory node).incarnation ≤ incarnation }
        ensures newer { ((storage_of self.old).server.memory node).incarnation < incarnation
            → storage_of self.new ≡ renewed (storage_of self.old) node incarnation }
        ensures same { ((storage_of self.old).server.memory node).incarnation ≡ incarnation
            → self.new ≡ self.old }
    {
        self.server.renew(node, incarnation);
    }

    /// The least epoch whose calls are handled.
    pub fn epoch(&self) -> Epoch
        ensures server { result ≡ (storage_of self.now).server.epoch }
        ensures log { result ≡ (storage_of self.now).log.epoch }
    {
        self.server.epoch()
    }

    /// The length of the log in bytes.
    pub fn tail(&self) -> u64
        ensures { result ≡ tail_of (storage_of self.now).log }
    {
        self.log.tail()
    }

    /// The LSN of the last group, or 0.
    pub fn last(&self) -> Lsn
        ensures { result ≡ length (storage_of self.now).log.groups }
    {
        self.log.last()
    }
}
