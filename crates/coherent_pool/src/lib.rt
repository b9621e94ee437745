//! The pool of pages: what each node keeps of pages, and how it changes as the node's fetches go
//! on.
#![tactic(auto)]

mod acting;
mod answers;
mod beginning;
mod calls;
mod known;
mod laws;
mod learning;
mod leaving;
mod losing;
mod node;
mod planning;
mod settling;
mod standing;
#[cfg(test)]
mod tests;
mod wanting;
mod works;

pub use calls::{HomeAsk, NodeCalls, PageAsk};
pub use known::{AddressTable, Known};
pub use laws::{hearing_laws, home_change_laws, move_laws, node_change_laws, plan_move_laws};
pub use node::PoolNode;
pub use wanting::Wants;
pub use works::{FetchWork, Stage, Works};
