//! Plans as they are spelled, and pages over which plans run.
mod pages;
mod plans;
mod stamping;
