//! The versions of a range of keys that a reader sees, over pages that are handed in one by one.
#![tactic(auto)]

mod fetch;
mod items;
mod laws;
mod reader;
mod stepping;
#[cfg(test)]
mod tests;
mod versions;

pub use fetch::{Fetch, MOST_FETCHES, MOST_VERSIONS, Snapshot};
pub use items::{copy_of, item_at, leaf_in};
pub use laws::{found_law, order_law};
pub use reader::RangeReader;
pub use stepping::{child_of, step};
pub use versions::{is_own, is_seen, stamp_fetch};
