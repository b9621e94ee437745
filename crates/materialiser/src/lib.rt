//! Pages out of redo: a base image brought forward by the groups past it.
#![tactic(auto)]

mod merging;
mod replaying;
#[cfg(test)]
mod tests;
mod versions;

pub use merging::{ascends, merge, try_merge};
pub use replaying::replay;
pub use versions::{PageRow, version};
