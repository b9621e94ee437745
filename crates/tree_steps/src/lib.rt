//! The groups of a log are steps of a tree: plans of changes and splits, undoing, and what touches
//! other pages. So the pages that a log leaves, LSN by LSN, are a tree over time.
#![tactic(auto)]

mod examples;
mod steps;

pub use examples::log_example;
pub use steps::step_laws;
