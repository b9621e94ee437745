//! One change of a leaf as a machine that asks for pages and hands out plans: the change of a row, with
//! the splits that it needs, and the undo of one.
#![tactic(auto)]

mod back_edit;
mod back_plans;
mod back_stages;
mod changes;
mod laws;
mod leaf_items;
mod leaf_plans;
mod room;
mod row_edit;
mod row_plans;
mod row_stages;
mod stepping;
#[cfg(test)]
mod tests;
mod wishes;

pub use back_edit::BackEdit;
pub use back_stages::{BackStage, BackTask};
pub use changes::{BackGround, RowChange, RowGround};
pub use laws::edit_laws;
pub use room::Room;
pub use row_edit::RowEdit;
pub use row_stages::{MOST_SPLITS, RowStage, RowTask};
pub use stepping::{WAY_PAGES, Walk};
pub use wishes::{Act, Edited, Fetch, Taken};
