//! What a statement reads, over pages that are handed in one by one.
#![tactic(auto)]

mod asking;
mod decoding;
mod laws;
mod naming;
mod progress;
mod reader;
mod tables;
#[cfg(test)]
mod tests;

pub use asking::{AskingReader, Read};
pub use laws::{answer_law, decoder_law, fetch_law, order_law, read_laws};
pub use reader::StatementReader;
pub use tables::{Found, Table};
