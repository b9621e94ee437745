ghost use Rattle.std.specs.Prelude.{◌≡◌, ◌≤◌, ◌+◌, ◌↔◌, ◌++◌, ◌∷◌, [], ℕ, true, not, ◌&&◌, ◌||◌, nat_eq, Some, IsSome, IsNone, IfOk, IfSome, OnOk, OnErr};
ghost use Rattle.std.specs.Option.{option_copied};

use crate::messages::{Draft, Message};
use rm_base::{MsgNo, WantOfMemory};
use std::alloc::Global;
use std::collections::BTreeSet;
use std::marker::Model;

/// The network: each message that was sent, and the numbers of those that are not noted as delivered.
/// It may bring a message at any time, again, or never.
#[derive(Drop)]
pub struct Network {
    messages: Vec<Message>,
    fresh: BTreeSet<u64>,
}

impl Model for Network {
    ghost use Rattle.message_network.specs.Post.{Post, IsPost};

    ghost Value = { Post };

    ghost view = { λ network. record { messages = network.messages.items; fresh = network.fresh.keys } };

    ghost invariant = { λ network. IsPost network.messages.items network.fresh.keys };
}

impl Network {
    ghost use Rattle.message_network.specs.Post.{count_of, IsSent, with_message, message_at, is_new, IsNextNew, drafts_of, draft_at};

    /// Nothing was sent. It keeps the allocator, and takes no memory yet.
    pub fn new(alloc: Global) -> Network
        ensures sent { result.messages ≡ [] }
        ensures new { result.fresh ≡ [] }
    {
        Network {
            messages: Vec::new(alloc),
            fresh: BTreeSet::new(alloc),
        }
    }

    /// How many messages were sent.
    pub fn count(&self) -> u64
        ensures { result ≡ count_of self.now }
    {
        self.messages.len() as u64
    }

    #[tactic(auto, using(crate::proofs::Drafts::drafts_more))]
    /// Sends the message, which gets the next number.
    pub fn send(&mut self, draft: Draft) -> Result<MsgNo, WantOfMemory>
        ensures number { IfOk result (λ no. no ≡ count_of self.old + 1) }
        ensures sent { IfOk result (λ no. self.new.messages ≡ with_message self.old no draft) }
        ensures drafts { OnOk result (drafts_of self.new ≡ drafts_of self.old ++ draft ∷ []) }
        ensures new { IfOk result (λ no. (k : ℕ) → is_new self.new k ≡ (nat_eq k no || is_new self.old k)) }
        ensures err { OnErr result (self.new ≡ self.old) }
    {
        self.messages.reserve(1)?;
        let number = self.messages.len() as u64 + 1;
        self.fresh.insert(number)?;
        let no = MsgNo::new(number);
        match self.messages.push(Message { no, draft }) {
            Ok(()) => {}
            Err(_) => unreachable!(),
        }
        Ok(no)
    }

    /// The message with that number. None exactly where it was never sent.
    pub fn deliver(&self, number: MsgNo) -> Option<&Message>
        ensures sent { IsSome result ↔ IsSent self.now number }
        ensures message { option_copied result ≡ message_at self.now number }
        ensures numbered { IfSome result (λ m. m.now.no ≡ number) }
        ensures draft { IfSome result (λ m. draft_at (drafts_of self.now) number ≡ Some m.now.draft) }
    {
        if number.number() == 0 {
            return None;
        }
        self.messages.get((number.number() - 1) as usize)
    }

    /// Notes the message as delivered. Nothing changes where it was never sent.
    pub fn mark(&mut self, number: MsgNo)
        ensures sent { self.new.messages ≡ self.old.messages }
        ensures new { (k : ℕ) → is_new self.new k ≡ (not (nat_eq k number) && is_new self.old k) }
        ensures same { (IsSent self.old number → ⊥) → self.new ≡ self.old }
    {
        self.fresh.remove(&number.number());
    }

    /// The least number from `from` on of a sent message that is not noted. None exactly where there is
    /// none.
    pub fn next_new(&self, from: MsgNo) -> Option<MsgNo>
        ensures next { IfSome result (IsNextNew self.now from) }
        ensures none { IsNone result → (k : ℕ) → from ≤ k → is_new self.now k ≡ true → ⊥ }
        ensures sent { IfSome result (IsSent self.now) }
    {
        let number = self.fresh.range(from.number()..).next()?;
        Some(MsgNo::new(*number))
    }
}
