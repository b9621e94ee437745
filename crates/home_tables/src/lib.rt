//! The home's tables: the entries of the pages in the pool, the pages that may be given away, and the
//! nodes whose local bit is still to be set.
#![tactic(auto)]

mod entry;
mod home;
mod number_set;
#[cfg(test)]
mod tests;

pub use entry::{Access, Entry};
pub use home::Home;
pub use number_set::NumberSet;
