ghost use Rattle.std.specs.Prelude.{◌≡◌, ◌+◌, ◌<◌, ◌^◌, ◌↔◌, true, IsSome, IsNone, IfSome};
ghost use Rattle.std.specs.Option.{option_copied};
ghost use Rattle.call_model.specs.Callers.{new_caller, asking, answered, renewed};

use crate::calls::Reply;
use crate::messages::{Body, Message};
use rm_base::{CallNo, Token};

/// A node's caller of one server: it has at most one unanswered call.
#[derive(Clone, Copy, Debug, PartialEq, Eq)]
pub struct Caller {
    token: Token,
    /// The number of the last call; 0 before the first.
    last: CallNo,
    /// Whether the last call is unanswered.
    waits: bool,
}

impl Caller {
    ghost use Rattle.message_network.specs.CallerView.{caller_of, token_of, awaited, accepted};

    pub fn new(token: Token) -> Caller
        ensures caller { caller_of result ≡ new_caller token.incarnation token.epoch }
        ensures token { token_of result ≡ token }
    {
        Caller {
            token,
            last: CallNo::new(0),
            waits: false,
        }
    }

    /// Who asks.
    pub fn token(&self) -> Token
        ensures { result ≡ token_of self.now }
    {
        self.token
    }

    /// The number of the unanswered call.
    pub fn waiting(&self) -> Option<CallNo>
        ensures { result ≡ awaited (caller_of self.now) }
    {
        if self.waits { Some(self.last) } else { None }
    }

    /// The number of a new call. None exactly where a call is unanswered; then nothing changes.
    pub fn ask(&mut self) -> Option<CallNo>
        requires { (caller_of self.old).last + 1 < 2 ^ 64 }
        ensures none { IsNone result ↔ ((caller_of self.old).waits ≡ true) }
        ensures asked { IsSome result → caller_of self.new ≡ asking (caller_of self.old) }
        ensures number { IfSome result (λ no. no ≡ (caller_of self.old).last + 1) }
        ensures token { token_of self.new ≡ token_of self.old }
        ensures same { IsNone result → self.new ≡ self.old }
    {
        if self.waits {
            return None;
        }
        self.last = CallNo::new(self.last.number() + 1);
        self.waits = true;
        Some(self.last)
    }

    /// The reply in the message, where it is the one that the caller waits for. None exactly where the
    /// message is no reply, no call is unanswered, or the call's number, incarnation or epoch is not
    /// the awaited one; then nothing changes.
    pub fn accept<'a>(&mut self, message: &'a Message) -> Option<&'a Reply>
        ensures reply { option_copied result ≡ accepted (caller_of self.old) message.now.draft }
        ensures answered { IsSome result → caller_of self.new ≡ answered (caller_of self.old) }
        ensures token { token_of self.new ≡ token_of self.old }
        ensures same { IsNone result → self.new ≡ self.old }
    {
        let Body::Reply(reply) = &message.draft.body else {
            return None;
        };
        let token = message.draft.token;
        let is_awaited = self.waits
            && token.incarnation == self.token.incarnation
            && token.epoch == self.token.epoch
            && message.draft.call == self.last;
        if !is_awaited {
            return None;
        }
        self.waits = false;
        Some(reply)
    }

    /// The node is of another incarnation and epoch: its unanswered call is dropped, and the numbers go
    /// on.
    pub fn renew(&mut self, token: Token)
        ensures renewed { caller_of self.new ≡ renewed token.incarnation token.epoch (caller_of self.old) }
        ensures token { token_of self.new ≡ token }
    {
        self.token = token;
        self.waits = false;
    }
}
