//! What a test of keys tells over pages that hold a store of versions is the store's verdict.
#![tactic(auto)]

mod laws;

pub use laws::{ending_laws, example_laws, verdict_laws};
