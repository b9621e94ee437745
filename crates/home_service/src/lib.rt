//! The home's side of the pool: the home's tables with the pages' latches, and the slabs, behind one
//! server, which handles each call at most once.
#![tactic(auto)]

mod expecting;
mod laws;
mod reaching;
mod replying;
mod service;
#[cfg(test)]
mod tests;

pub use laws::{access_laws, call_laws};
pub use service::HomeService;
