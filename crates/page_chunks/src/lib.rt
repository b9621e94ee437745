//! Pages in storage: a chunk of 256 pages, brought forward by groups of the log.
#![tactic(auto)]

mod chunk;
mod entries;
mod judging;
mod laws;
mod pending;
mod taking;
#[cfg(test)]
mod tests;

pub use chunk::PageChunk;
pub use laws::chunk_laws;
