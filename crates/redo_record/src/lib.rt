//! Redo: the changes of pages as records, groups of records as bytes, and what a record does to a
//! page.
#![tactic(auto)]

mod applying;
mod decoding;
mod encoding;
mod laws;
mod opening;
mod plans;
mod reader;
mod record_reader;
mod redo;

pub use applying::{BadApply, apply};
pub use decoding::{BadRecord, decode};
pub use encoding::encode;
pub use laws::{fold_laws, grammar_laws};
pub use opening::{FIRST_TRX_ID, FORMAT_NUMBER, META_FIELDS_AT, NO_STAMP, opening_records};
pub use plans::{Path, Plan, PlanKind, TreeNo};
pub use redo::{Group, Groups, Record, Records};

#[cfg(test)]
mod tests;
