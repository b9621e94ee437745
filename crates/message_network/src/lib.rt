//! The messages of a cluster: what its parts ask and answer, the network that brings it, and the
//! callers and servers that see to it that each call is handled at most once.
#![tactic(auto)]

mod asking;
mod calls;
mod copies;
mod laws;
mod looks;
mod messages;
mod serving;
#[cfg(test)]
mod tests;
mod traffic;

pub use asking::Caller;
pub use calls::{Ask, Reply};
pub use laws::{service_laws, service_samples};
pub use looks::Seen;
pub use messages::{Body, Draft, Message, Party};
pub use serving::{Admit, Server};
pub use traffic::Network;
