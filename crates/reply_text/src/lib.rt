//! What is printed of values, replies and the journal's entries.
#![tactic(auto)]

mod entries;
mod replies;
#[cfg(test)]
mod tests;
mod values;

pub use entries::entry_text;
pub use replies::{last_line, reply_text, row_line, rows_of};
