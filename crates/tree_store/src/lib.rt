//! Trees of keys on the pages of one store: the leaves of a range of keys, and changes of one item, each
//! with the splits that it needs.
#![tactic(auto)]

mod changing;
mod finding;
mod laws;
#[cfg(test)]
mod tests;

pub use changing::{make_room, put, put_with_tree, take_out};
pub use finding::{leaves_in, next_page};
pub use laws::forest_laws;
