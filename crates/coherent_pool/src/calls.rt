//! The calls of a node to the home and to storage.
ghost use Rattle.std.specs.Prelude.{◌≡◌, ◌+◌, ◌<◌, ◌^◌, ◌↔◌, ℕ, true, false, None, Some, IsSome, IsNone, IfSome};
ghost use Rattle.std.specs.Option.{option_copied};
ghost use Rattle.call_model.specs.Callers.{new_caller, asking, answered, renewed};
ghost use Rattle.message_network.specs.CallerView.{accepted};
ghost use Rattle.message_network.specs.declared.messages.Party.TheVariants.{Node};
ghost use Rattle.message_network.specs.declared.messages.Body.TheVariants.{Ask as Asked};

use message_network::{Ask, Body, Caller, Draft, Message, Party, Reply};
use rm_base::{Bytes, CallNo, Lsn, PageId, PageList, Token};

/// What a node asks of the home about a page.
#[derive(Clone, Copy, Debug, PartialEq, Eq)]
pub enum HomeAsk {
    Register(PageId),
    Unregister(PageId),
}

/// A page that storage is asked for, with the floor.
#[derive(Clone, Copy, Debug, PartialEq, Eq)]
pub struct PageAsk {
    pub page: PageId,
    pub floor: Lsn,
}

/// The calls of a node: at most one to the home and one to storage is unanswered.
#[derive(Clone, Copy, Debug, PartialEq, Eq)]
pub struct NodeCalls {
    home: Caller,
    storage: Caller,
    home_ask: Option<HomeAsk>,
    invalidates: bool,
    page_ask: Option<PageAsk>,
    append: Option<u64>,
}

fn copied(token: &Token) -> Token
    ensures { result ≡ token.now }
{
    Token {
        node: token.node,
        incarnation: token.incarnation,
        epoch: token.epoch,
    }
}

/// The call of that number, as it is sent.
fn sent(token: Token, to: Party, call: CallNo, ask: Ask) -> Draft
    ensures { result ≡ record {
      from = Node token.node;
      to = to;
      token = token;
      call = call;
      body =
          Asked ask;
    } }
{
    Draft {
        from: Party::Node(token.node),
        to,
        token,
        call,
        body: Body::Ask(ask),
    }
}

impl HomeAsk {
    ghost use Rattle.coherent_pool.specs.Calls.{asked_of};

    fn ask(&self) -> Ask
        ensures { result ≡ asked_of self.now }
    {
        match self {
            HomeAsk::Register(page) => Ask::Register(*page),
            HomeAsk::Unregister(page) => Ask::Unregister(*page),
        }
    }
}

impl NodeCalls {
    ghost use Rattle.coherent_pool.specs.Calls.{home_of, storage_of, home_ask_of, page_ask_of, token_in, token_of_storage, invalidates_in, append_of, home_draft, invalidate_draft, page_draft, append_draft, SameHome, SameStorage};

    /// A node without calls.
    pub fn new(token: &Token) -> NodeCalls
        ensures home { home_of result ≡ new_caller token.now.incarnation token.now.epoch }
        ensures storage { storage_of result ≡ new_caller token.now.incarnation token.now.epoch }
        ensures none { (home_ask_of result ≡ None) × (page_ask_of result ≡ None) }
        ensures neither { (invalidates_in result ≡ false) × (append_of result ≡ None) }
        ensures token { token_in result ≡ token.now }
    {
        NodeCalls {
            home: Caller::new(copied(token)),
            storage: Caller::new(copied(token)),
            home_ask: None,
            invalidates: false,
            page_ask: None,
            append: None,
        }
    }

    /// What the unanswered call to the home asks about a page.
    pub fn home_ask(&self) -> Option<HomeAsk>
        ensures { result ≡ home_ask_of self.now }
    {
        self.home_ask
    }

    /// Whether the unanswered call to the home asks to invalidate pages.
    pub fn invalidates(&self) -> bool
        ensures { result ≡ invalidates_in self.now }
    {
        self.invalidates
    }

    /// Where the bytes of the unanswered append are to stand in the log.
    pub fn append(&self) -> Option<u64>
        ensures { result ≡ append_of self.now }
    {
        self.append
    }

    /// What the unanswered call to storage asks about a page.
    pub fn page_ask(&self) -> Option<PageAsk>
        ensures { result ≡ page_ask_of self.now }
    {
        self.page_ask
    }

    /// Asks the home. None exactly where a call to it is unanswered; then nothing changes.
    pub fn ask_home(&mut self, ask: HomeAsk) -> Option<Draft>
        requires { (home_of self.old).last + 1 < 2 ^ 64 }
        ensures none { IsNone result ↔ ((home_of self.old).waits ≡ true) }
        ensures draft { IfSome result (λ d. d
            ≡ home_draft (token_in self.old) ((home_of self.old).last + 1) ask) }
        ensures asked { IsSome result → home_of self.new ≡ asking (home_of self.old) }
        ensures ask { IsSome result → home_ask_of self.new ≡ Some ask }
        ensures plain { IsSome result → invalidates_in self.new ≡ false }
        ensures storage { SameStorage self.old self.new }
        ensures same { IsNone result → self.new ≡ self.old }
    {
        let token = self.home.token();
        let number = self.home.ask()?;
        let draft = sent(token, Party::Home, number, ask.ask());
        self.home_ask = Some(ask);
        self.invalidates = false;
        Some(draft)
    }

    /// Asks the home to invalidate the pages. None exactly where a call to it is unanswered; then
    /// nothing changes.
    pub fn ask_invalidate(&mut self, pages: PageList) -> Option<Draft>
        requires { (home_of self.old).last + 1 < 2 ^ 64 }
        ensures none { IsNone result ↔ ((home_of self.old).waits ≡ true) }
        ensures draft { IfSome result (λ d. d
            ≡ invalidate_draft (token_in self.old) ((home_of self.old).last + 1) pages) }
        ensures asked { IsSome result → home_of self.new ≡ asking (home_of self.old) }
        ensures ask { IsSome result → home_ask_of self.new ≡ None }
        ensures invalidates { IsSome result → invalidates_in self.new ≡ true }
        ensures storage { SameStorage self.old self.new }
        ensures same { IsNone result → self.new ≡ self.old }
    {
        let token = self.home.token();
        let number = self.home.ask()?;
        self.home_ask = None;
        self.invalidates = true;
        Some(sent(token, Party::Home, number, Ask::Invalidate(pages)))
    }

    /// Asks storage for a page. None exactly where a call to it is unanswered; then nothing
    /// changes.
    pub fn ask_page(&mut self, page: PageId, floor: Lsn) -> Option<Draft>
        requires { (storage_of self.old).last + 1 < 2 ^ 64 }
        ensures none { IsNone result ↔ ((storage_of self.old).waits ≡ true) }
        ensures draft { IfSome result (λ d. d
            ≡ page_draft (token_of_storage self.old) ((storage_of self.old).last + 1) page floor) }
        ensures asked { IsSome result → storage_of self.new ≡ asking (storage_of self.old) }
        ensures ask { IsSome result
            → page_ask_of self.new ≡ Some (record { page = page; floor = floor }) }
        ensures plain { IsSome result → append_of self.new ≡ None }
        ensures home { SameHome self.old self.new }
        ensures same { IsNone result → self.new ≡ self.old }
    {
        let token = self.storage.token();
        let number = self.storage.ask()?;
        self.page_ask = Some(PageAsk { page, floor });
        self.append = None;
        Some(sent(token, Party::Storage, number, Ask::Get { page, floor }))
    }

    /// Asks storage to append the bytes to the log, from the offset on. None exactly where a call to
    /// it is unanswered; then nothing changes.
    pub fn ask_append(&mut self, offset: u64, bytes: Bytes) -> Option<Draft>
        requires { (storage_of self.old).last + 1 < 2 ^ 64 }
        ensures none { IsNone result ↔ ((storage_of self.old).waits ≡ true) }
        ensures draft { IfSome result (λ d. d
            ≡ append_draft (token_of_storage self.old) ((storage_of self.old).last + 1) offset
            bytes) }
        ensures asked { IsSome result → storage_of self.new ≡ asking (storage_of self.old) }
        ensures ask { IsSome result → page_ask_of self.new ≡ None }
        ensures append { IsSome result → append_of self.new ≡ Some offset }
        ensures home { SameHome self.old self.new }
        ensures same { IsNone result → self.new ≡ self.old }
    {
        let token = self.storage.token();
        let number = self.storage.ask()?;
        self.page_ask = None;
        self.append = Some(offset);
        Some(sent(token, Party::Storage, number, Ask::Append { offset, bytes }))
    }

    /// The home's reply in the message, where it is the one that the node waits for. It is taken
    /// once: then the node asks nothing of the home.
    pub fn accept_home<'a>(&mut self, message: &'a Message) -> Option<&'a Reply>
        ensures reply { option_copied result ≡ accepted (home_of self.old) message.now.draft }
        ensures answered { IsSome result → home_of self.new ≡ answered (home_of self.old) }
        ensures ask { IsSome result → home_ask_of self.new ≡ None }
        ensures invalidates { IsSome result → invalidates_in self.new ≡ false }
        ensures storage { SameStorage self.old self.new }
        ensures same { IsNone result → self.new ≡ self.old }
    {
        let reply = self.home.accept(message)?;
        self.home_ask = None;
        self.invalidates = false;
        Some(reply)
    }

    /// The reply of storage in the message, where it is the one that the node waits for. It is
    /// taken once: then the node asks nothing of storage.
    pub fn accept_storage<'a>(&mut self, message: &'a Message) -> Option<&'a Reply>
        ensures reply { option_copied result ≡ accepted (storage_of self.old) message.now.draft }
        ensures answered { IsSome result → storage_of self.new ≡ answered (storage_of self.old) }
        ensures ask { IsSome result → page_ask_of self.new ≡ None }
        ensures append { IsSome result → append_of self.new ≡ None }
        ensures home { SameHome self.old self.new }
        ensures same { IsNone result → self.new ≡ self.old }
    {
        let reply = self.storage.accept(message)?;
        self.page_ask = None;
        self.append = None;
        Some(reply)
    }

    /// The node is of another incarnation and epoch: its unanswered calls are dropped.
    pub fn renew(&mut self, token: &Token)
        ensures home { home_of self.new
            ≡ renewed token.now.incarnation token.now.epoch (home_of self.old) }
        ensures storage { storage_of self.new
            ≡ renewed token.now.incarnation token.now.epoch (storage_of self.old) }
        ensures none { (home_ask_of self.new ≡ None) × (page_ask_of self.new ≡ None) }
        ensures neither { (invalidates_in self.new ≡ false) × (append_of self.new ≡ None) }
        ensures token { token_in self.new ≡ token.now }
    {
        self.home.renew(copied(token));
        self.storage.renew(copied(token));
        self.home_ask = None;
        self.invalidates = false;
        self.page_ask = None;
        self.append = None;
    }
}
