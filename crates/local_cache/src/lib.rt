//! The pages of which a node keeps copies, by their last use.
#![tactic(auto)]

mod cache;

pub use cache::{Cached, LocalCache};

#[cfg(test)]
mod tests;
