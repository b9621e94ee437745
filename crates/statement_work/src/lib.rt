//! The work of a worker: what it asks for, one after the other, and what it tells then; and the trait of
//! workers.
#![tactic(auto)]

mod acts;
mod fitting;
mod laws;
mod worker;

pub use acts::{Act, Deed, FixedPage, Given, Job, Obstacle};
pub use fitting::{fits, is_fixed};
pub use laws::example_laws;
pub use worker::Worker;
