//! Tests of trees and versions together, by their public calls: where numbers and pages end, and a row that is changed
//! and undone where its leaf has filled up meanwhile.
#![tactic(auto)]

#[cfg(test)]
mod items;
#[cfg(test)]
mod limits;
#[cfg(test)]
mod trees;
#[cfg(test)]
mod undoing;
