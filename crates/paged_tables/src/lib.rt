//! Tables of rows on trees of pages: the rows of each table are the items of its tree, and the tables
//! are the items of one more tree, the catalog.
#![tactic(auto)]

mod catalog;
mod items;
mod reading;
mod rows;
mod tables;
#[cfg(test)]
mod tests;

pub use tables::PagedTables;
