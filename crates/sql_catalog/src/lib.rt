//! Tables as rows of the catalog: what a schema and its tree's root are spelled as, and read from.
#![tactic(auto)]

mod reading;
mod spelling;
mod tables;
#[cfg(test)]
mod tests;

pub use reading::{catalog_laws, schema_of};
pub use spelling::row_for;
pub use tables::is_table;
