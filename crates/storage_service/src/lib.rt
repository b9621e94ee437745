//! Storage: the log store and the 128 chunks of pages behind one server, which handles each call at
//! most once.
#![tactic(auto)]

mod applying;
mod laws;
mod noting;
mod shipping;
mod starting;
mod storage;
#[cfg(test)]
mod tests;

pub use applying::all_apply;
pub use laws::storage_laws;
pub use storage::StorageService;
