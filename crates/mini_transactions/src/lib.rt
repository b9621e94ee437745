//! Mini-transactions: how the read-write node carries a plan's changes to the pages of the pool, one
//! act at a time.
#![tactic(auto)]

mod known;
mod mini;
mod page_work;
mod stage;
mod telling;
#[cfg(test)]
mod tests;

pub use known::{Known, KnownPage, KnownPages};
pub use mini::Mini;
pub use stage::Phase;
