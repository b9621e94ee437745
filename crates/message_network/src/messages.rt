use crate::calls::{Ask, Reply};
use rm_base::{CallNo, MsgNo, NodeId, Token};

/// A part of the cluster that sends and gets messages.
#[derive(Clone, Copy, Debug, PartialEq, Eq)]
pub enum Party {
    Node(NodeId),
    Home,
    Storage,
}

#[derive(Debug, Drop)]
pub enum Body {
    Ask(Ask),
    Reply(Reply),
}

/// What is sent: a call with its label, or the answer to the call with that label.
#[derive(Debug, Drop)]
pub struct Draft {
    pub from: Party,
    pub to: Party,
    pub token: Token,
    pub call: CallNo,
    pub body: Body,
}

/// What was sent, with its number in the order of sending.
#[derive(Debug, Drop)]
pub struct Message {
    pub no: MsgNo,
    pub draft: Draft,
}
