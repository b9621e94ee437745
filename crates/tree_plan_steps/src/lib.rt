//! The plans of trees and of versions give a store of versions, and the events of a cluster's history, what these ask
//! of them: laws.
#![tactic(auto)]

mod laws;

pub use laws::{event_laws, example_laws, plan_laws, undo_item_laws};
