//! The table machine: which journals of a cluster's sessions may be. It knows tables, commits and a queue, and no
//! pages, logs or messages.
#![tactic(auto)]

mod entries;
mod laws;
mod roomy;
#[cfg(test)]
mod tests;

pub use entries::{Entry, Journal, SessionNames};
pub use laws::{Language, machine_laws, serving_laws};
pub use roomy::Roomy;
