//! Pages of 4,096 bytes: a header and a list of items, or a header and a body of fields.
#![tactic(auto)]

mod changes;
mod errors;
mod faults;
mod header;
mod kind;
mod laws;
mod layout;
mod meta;
mod moving;
mod page;

pub use errors::BadPage;
pub use kind::Kind;
pub use laws::page_laws;
pub use meta::{PAGE_COUNT_AT, page_count};
pub use page::Page;

/// The largest number of items on a page: each has a byte and a slot of two.
const MOST_SLOTS: u16 = 1354;

#[cfg(test)]
mod tests;
