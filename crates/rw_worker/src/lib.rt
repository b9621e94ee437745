//! What a node that writes does to make a statement's changes, and to undo an ended transaction's.
#![tactic(auto)]

mod acting;
mod laws;
mod undo_edit;
mod undo_stages;
mod write_edit;
mod write_stages;
mod writes;

pub use laws::{example_laws, undo_laws, write_laws};
pub use undo_edit::UndoEdit;
pub use undo_stages::{MOST_CHANGES, UndoStage};
pub use write_edit::WriteEdit;
pub use write_stages::WriteStage;
pub use writes::{Todo, Write, WriteEnd};
