//! SQL's values: NULL, INT and TEXT, with their order, their arithmetic and the logic of three truths.
#![tactic(auto)]

mod arithmetic;
mod comparing;
mod logic;
mod schemas;
mod values;

pub use arithmetic::{Overflow, add, mul, sub};
pub use comparing::{compare, order, order_laws};
pub use logic::{Truth, and, not, or};
pub use schemas::{Column, Columns, Schema, Schemas};
pub use values::{Row, Rows, Sort, Value, fits};
