//! What a statement answers over the pages that it was handed out, one after the other while the
//! log grew, is the table machine's answer at its snapshot.
#![tactic(auto)]

mod laws;

pub use laws::{answer_laws, reader_laws};
