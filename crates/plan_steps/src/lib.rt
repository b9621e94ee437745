//! What each plan makes of the store of versions that pages hold: definitions and their laws.
#![tactic(auto)]

mod laws;

pub use laws::{
    apply_laws, change_laws, count_laws, entry_laws, example_laws, growth_laws, split_laws,
};
