//! The history of a cluster: its log of versions beside the table machine, over every list of events, crashes and
//! takeovers included. Definitions and their laws.
#![tactic(auto)]

mod laws;

pub use laws::{fair_laws, history_laws, incident_laws, small_run_laws};
