//! The tokens of an SQL text, each a slice of it.
#![tactic(auto)]

mod bytes;
mod contents;
mod cutting;
mod numbers;
mod quotes;
mod reserved;
mod scanning;
mod signs;
mod tokens;

pub use contents::content_of;
pub use numbers::number_in;
pub use reserved::{WORDS, Word};
pub use scanning::{Reading, one_reading, scan, words};
pub use signs::Sign;
pub use tokens::{BadWord, Class, Token, Tokens};
