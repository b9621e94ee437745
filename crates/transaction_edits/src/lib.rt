//! A transaction's begin and end as machines that ask for pages and hand out one plan each: it gets its
//! number, or its stamp, or its slot becomes free.
#![tactic(auto)]

mod edit;
mod numbering;
mod stages;
#[cfg(test)]
mod tests;
mod wishes;

pub use edit::TransactionEdit;
pub use wishes::{Act, Fetch, Told};
