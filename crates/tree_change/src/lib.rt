//! Plans that change a tree: an item is put in, replaced, marked or taken out, or a page is split.
#![tactic(auto)]

mod changing;
mod counting;
mod halves;
mod making_room;
mod places;
mod putting;
mod room;
mod root_splitting;
mod rooting;
mod spelling;
mod splitting;

pub use changing::{plan_insert, plan_mark, plan_remove, plan_update};
pub use making_room::plan_room;
pub use putting::{plan_put, plan_take};
pub use root_splitting::plan_root_split;
pub use rooting::plan_with_root;
pub use splitting::plan_split;

#[cfg(test)]
mod tests;
