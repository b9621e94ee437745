//! The plans that the machines of edits hand out, over the pages of the log as it stands, are the events of a
//! cluster's history: laws.
#![tactic(auto)]

mod laws;

pub use laws::{asking_laws, edit_event_laws, example_laws};
