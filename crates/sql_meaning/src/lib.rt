//! What SQL statements mean: names become places in a row, sorts are checked, and expressions are evaluated.
#![tactic(auto)]

mod actions;
mod evaluating;
mod fields;
mod kinds;
mod laws;
mod mentions;
mod placing;
mod refusals;
mod resolved;
mod resolving;
mod sorting;

pub use actions::{Action, OrderPlace, OrderPlaces, Output, SetPlace, SetPlaces, Total, Totals};
pub use evaluating::test_truth;
pub use fields::{Field, Fields, append_fields, place_of, table_named};
pub use kinds::{Kind, is_number, is_truth, is_value, kind_of, takes};
pub use laws::sort_laws;
pub use mentions::{Mention, Mentions, of_tables, of_tuples, unknown_among};
pub use placing::{place_expr, place_statement};
pub use refusals::Refusal;
pub use resolved::{Resolved, ResolvedList, ResolvedRows};
pub use resolving::{resolve, statement_fields};
