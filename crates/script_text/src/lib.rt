//! Scripts as text: what their lines say, and which line is the first that is bad.
#![tactic(auto)]

mod building;
mod cuts;
mod faults;
mod forms;
mod heads;
mod laws;
mod lines;
mod names;
mod numbers;
mod orders;
mod reading;
mod scripts;
mod statements;
#[cfg(test)]
mod tests;
mod verbs;
mod whys;
mod words;

pub use faults::fault_text;
pub use laws::{form_laws, script_laws};
pub use scripts::read_script;
pub use whys::{BadScript, Why};
