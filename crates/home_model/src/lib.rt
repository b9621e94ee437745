//! What the home keeps of a page, as definitions: the latch and the entry, and what each call does
//! to them. The crates with code say in their contracts which of these changes a call makes.
#![tactic(auto)]

mod laws;

pub use laws::{entry_laws, latch_laws};
