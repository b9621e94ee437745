//! Work that asks for one thing after the other: its laws.
#![tactic(auto)]

mod laws;

pub use laws::{example_laws, lift_laws, question_laws};
