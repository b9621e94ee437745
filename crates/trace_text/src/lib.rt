//! What is printed of a trace: which pages each statement used, and where its node had them from.
#![tactic(auto)]

mod lines;
#[cfg(test)]
mod tests;
mod uses;

pub use lines::trace_text;
