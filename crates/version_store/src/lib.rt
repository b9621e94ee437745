//! A store of versions by root and key, with stamps, slots and undo lists, and what each group of the log makes of
//! it: definitions and their laws.
#![tactic(auto)]

mod laws;

pub use laws::{example_laws, group_laws, reading_laws};
