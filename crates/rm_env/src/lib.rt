//! Where bytes come from and where they go: sources and sinks, whose contracts speak of the bytes to
//! come, of the bytes taken and of a count of faults. There are some in memory, which fail when they
//! are told to, and two over std's readers and writers.
#![tactic(auto)]

mod adapters;
mod memory;
mod pieces;
mod quiet;
mod sink;
mod source;
#[cfg(test)]
mod tests;

pub use adapters::{StdSink, StdSource};
pub use memory::{MemSink, MemSource};
pub use quiet::{QuietSink, QuietSource};
pub use sink::{Sink, SinkNo};
pub use source::{Failed, Source};
