//! Undo items on pages: the item before an item, the walk along the versions of a row, and the plan's
//! part that keeps what a change replaces.
#![tactic(auto)]

mod appending;
mod counting;
mod items;
mod laws;
mod reading;
mod spelling;
mod walk;

pub use appending::{UndoStep, append_plan};
pub use counting::push_undo_page;
pub use items::UndoItem;
pub use laws::chain_laws;
pub use reading::older;
pub use walk::{ChainWalk, ChainWant};

#[cfg(test)]
mod tests;
