//! The log store: the bytes and groups of the log, kept by appends of the present epoch alone.
#![tactic(auto)]

mod chunks;
mod laws;
mod places;
mod reading;
mod store;
#[cfg(test)]
mod tests;

pub use laws::store_laws;
pub use reading::next_groups;
pub use store::LogStore;
