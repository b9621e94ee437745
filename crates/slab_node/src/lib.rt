//! Slabs: the remote memory of pages, in slots that are taken and given back.
#![tactic(auto)]

mod laws;
mod slab;
mod slabs;
mod slots;
#[cfg(test)]
mod tests;

pub use laws::slab_laws;
pub use slab::{Slab, SlabNo};
pub use slabs::Slabs;
