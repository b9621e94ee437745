//! What slabs and nodes keep of a page, as definitions: the memory of slots, the place of a fetch
//! or a plan, a node's calls, its copy, and what it learns of each answer. The crates with code say
//! in their contracts which of these changes a call makes.
#![tactic(auto)]

mod laws;

pub use laws::{node_laws, slot_laws};
