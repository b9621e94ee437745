//! How a node fetches a page from remote memory: the acts that it asks for, one after another, and
//! what each answer makes of the fetch.
#![tactic(auto)]

mod acts;
mod fetch;
mod laws;
mod place;
#[cfg(test)]
mod tests;

pub use acts::{Action, Told};
pub use fetch::FetchStep;
pub use laws::{access_laws, act_laws, work_laws};
