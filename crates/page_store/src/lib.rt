//! The redo log of a database in memory and the pages that it leaves, with the changes since the last
//! call of `keep` apart, so that they can be given back.
#![tactic(auto)]

mod frame;
mod frames;
mod journal;
mod laws;
mod store;
#[cfg(test)]
mod tests;

pub use laws::{opening_laws, page_laws};
pub use store::PageStore;
