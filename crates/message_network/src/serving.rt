ghost use Rattle.std.specs.Prelude.{◌≡◌, ◌≤◌, ◌<◌, Some};
ghost use Rattle.std.specs.Option.{option_copied};
ghost use Rattle.call_model.specs.Servers.{Admission.New as NewCall, admit, new_server, keeping, fenced, forgetting};
ghost use Rattle.message_network.specs.Labels.{labelled};

use crate::calls::Reply;
use rm_base::{CallNo, Epoch, Incarnation, NodeId, Token};
use std::array;
use std::cmp::Ordering;

/// The nodes of a cluster.
const NODES: usize = 16;

/// What a server says to a call.
#[derive(Clone, Copy, Debug, PartialEq, Eq)]
pub enum Admit {
    /// It is to be handled.
    New,
    /// It is the last one that was handled.
    Again,
    /// It is of an older incarnation or number.
    Old,
    /// It is of an older epoch than the server's.
    Fenced(Epoch),
}

/// What is kept of a node: the newest incarnation that is known, and the last call of it that was
/// handled, with its reply. Number 0 and no reply where none was.
#[derive(Debug, Drop)]
struct Memory {
    incarnation: Incarnation,
    number: CallNo,
    reply: Option<Reply>,
}

/// A server of calls: it handles each call at most once, and keeps the last reply to each node.
#[derive(Debug, Drop)]
pub struct Server {
    epoch: Epoch,
    memories: [Memory; NODES],
}

impl Memory {
    ghost use Rattle.call_model.specs.Servers.{by_incarnation, nothing_of};
    ghost use Rattle.message_network.specs.ServerView.{memory_of, admission_of};

    /// Nothing was handled of that incarnation.
    fn nothing(incarnation: Incarnation) -> Memory
        ensures { memory_of result ≡ nothing_of incarnation }
    {
        Memory {
            incarnation,
            number: CallNo::new(0),
            reply: None,
        }
    }

    fn handled(token: Token, number: CallNo, reply: Reply) -> Memory
        ensures { result ≡ record { incarnation = token.incarnation; number = number; reply = Some reply } }
    {
        Memory {
            incarnation: token.incarnation,
            number,
            reply: Some(reply),
        }
    }

    fn admit(&self, token: Token, number: CallNo) -> Admit
        ensures { admission_of result ≡ by_incarnation (memory_of self.now) (labelled token number) }
    {
        if token.incarnation < self.incarnation {
            return Admit::Old;
        }
        if self.incarnation < token.incarnation || self.reply.is_none() {
            return Admit::New;
        }
        match number.cmp(&self.number) {
            Ordering::Less => Admit::Old,
            Ordering::Equal => Admit::Again,
            Ordering::Greater => Admit::New,
        }
    }
}

impl Server {
    ghost use Rattle.call_model.specs.Servers.{nothing_of};
    ghost use Rattle.message_network.specs.ServerView.{memory_of, server_of, known_of, admission_of};

    /// A server that knows nothing of any node.
    pub fn new(epoch: Epoch) -> Server
        ensures { server_of result ≡ new_server epoch }
    {
        Server {
            epoch,
            memories: array::from_fn(
                |_: usize| -> Memory
                    ensures { memory_of result ≡ nothing_of 0 }
                { Memory::nothing(Incarnation::new(0)) },
            ),
        }
    }

    pub fn epoch(&self) -> Epoch
        ensures { result ≡ (server_of self.now).epoch }
    {
        self.epoch
    }

    /// What the server says to a call.
    pub fn admit(&self, token: Token, number: CallNo) -> Admit
        ensures { admission_of result ≡ admit (server_of self.now) (labelled token number) }
    {
        if token.epoch < self.epoch {
            return Admit::Fenced(self.epoch);
        }
        let node = usize::from(token.node.number());
        self.memories[node].admit(token, number)
    }

    /// The reply to the node's last call that was handled in the incarnation that is known.
    pub fn last(&self, node: NodeId) -> Option<&Reply>
        ensures { option_copied result ≡ ((server_of self.now).memory node).reply }
    {
        let node = usize::from(node.number());
        self.memories[node].reply.as_ref()
    }

    /// The call was handled with that reply.
    pub fn keep(&mut self, token: Token, number: CallNo, reply: Reply)
        requires { admit (server_of self.old) (labelled token number) ≡ NewCall }
        ensures { server_of self.new ≡ keeping (server_of self.old) (labelled token number) reply }
    {
        let node = usize::from(token.node.number());
        self.memories[node] = Memory::handled(token, number, reply);
    }

    /// From now on calls of an older epoch are fenced.
    pub fn fence(&mut self, epoch: Epoch)
        requires { (server_of self.old).epoch ≤ epoch }
        ensures { server_of self.new ≡ fenced (server_of self.old) epoch }
    {
        self.epoch = epoch;
    }

    /// The node is of that incarnation. Where it is a newer one, nothing of it was handled.
    pub fn renew(&mut self, node: NodeId, incarnation: Incarnation)
        requires { known_of (server_of self.old) node ≤ incarnation }
        ensures newer { known_of (server_of self.old) node < incarnation
            → server_of self.new ≡ forgetting (server_of self.old) node incarnation }
        ensures same { known_of (server_of self.old) node ≡ incarnation → self.new ≡ self.old }
        ensures epoch { (server_of self.new).epoch ≡ (server_of self.old).epoch }
    {
        let node = usize::from(node.number());
        if self.memories[node].incarnation < incarnation {
            self.memories[node] = Memory::nothing(incarnation);
        }
    }
}
