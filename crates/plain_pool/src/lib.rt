//! The plain pool, of a cluster of one node: its pages and its log in memory. A fetch is one look, a plan is
//! its install, and an append is kept at once, each an act of its own.
#![tactic(auto)]

mod acting;
mod plain;
mod serving;
#[cfg(test)]
mod tests;
mod work;

pub use plain::PlainPool;
