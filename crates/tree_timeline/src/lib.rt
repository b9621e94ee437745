//! Trees that change while they are read: what stays of the range of each page, and what a read
//! finds whose images are of different times.
#![tactic(auto)]

mod examples;
mod ranges;
mod reads;

pub use examples::{example_laws, refuted_laws};
pub use ranges::range_laws;
pub use reads::read_laws;
