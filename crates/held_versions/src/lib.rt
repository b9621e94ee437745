//! The pages of a log hold a store of versions: what this is, and that the groups that begin and
//! end transactions keep it. Definitions and their laws.
#![tactic(auto)]

mod laws;

pub use laws::{example_laws, holds_laws, opening_laws, reading_laws};
