//! Numbers and stamps of transactions on pages: the session's slot that a transaction holds, its place
//! among the commits, and the plans that begin and end it.
#![tactic(auto)]

mod body;
mod counters;
mod plans;
mod slots;
mod spelling;
mod stamps;

pub use counters::{last_stamp, next_number, undo_page};
pub use plans::{TrxFull, begin_plan, commit_plan, free_plan};
pub use slots::{Slot, push_pointer, slot_of};
pub use stamps::{publish, stamp_of, stamp_page, visible};

#[cfg(test)]
mod tests;
