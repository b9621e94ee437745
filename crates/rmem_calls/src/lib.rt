//! The calls and accesses that the home serves: what each changes in the home's tables and the slabs,
//! and what it answers.
#![tactic(auto)]

mod accessing;
mod invalidating;
mod laws;
mod registering;
#[cfg(test)]
mod tests;

pub use accessing::{clean, home_turn, look, unregister};
pub use invalidating::invalidate;
pub use laws::{invalidate_laws, seating_laws};
pub use registering::register;
