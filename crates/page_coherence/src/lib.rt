//! The law of the pool: what holds of each page's entry, slot, history, copies, latch and calls,
//! over every list of events, crashes and takeovers among them.
#![tactic(auto)]

mod folds;
mod laws;
mod runs;
mod spans;
mod steps;

pub use folds::history_laws;
pub use laws::coherence_laws;
pub use runs::run_laws;
pub use spans::{frame_laws, install_laws, span_laws};
pub use steps::step_laws;
