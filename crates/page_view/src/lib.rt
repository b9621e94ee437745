//! What stands in a page, lent part by part: every part is a slice of the page, and no memory is taken.
#![tactic(auto)]

mod inner;
mod leaf;
mod leaf_view;
mod search;
mod stamps;
#[cfg(test)]
mod tests;
mod undo;

pub use inner::{InnerRef, InnerView, inner_laws};
pub use leaf::{LeafItem, LeafRef, leaf_laws};
pub use leaf_view::LeafView;
pub use stamps::StampView;
pub use undo::{UndoRef, UndoView, undo_laws};
