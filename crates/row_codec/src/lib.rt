//! Rows as the bytes of a leaf item: a key whose bytes are ordered as its values are, and the cells of
//! the other columns.
#![tactic(auto)]

mod fitting;
mod keys;
mod lengths;
mod reading;
mod spelling;

pub use fitting::fits_schema;
pub use keys::{key_laws, key_of};
pub use lengths::fits_record;
pub use reading::{key_in, row_laws, row_of};
pub use spelling::value_of;
use thiserror::Error;

/// A key or a row is larger than a leaf item may be.
#[derive(Clone, Copy, Debug, PartialEq, Eq, Error)]
#[error("too large")]
pub struct TooLarge;
