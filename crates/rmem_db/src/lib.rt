//! The one call that does all that the program does.
#![tactic(auto)]

mod language;
mod reading;
mod reply_writing;
mod running;
mod serving;
mod session;
mod status;
mod tables;
#[cfg(test)]
mod tests;
mod writing;

pub use language::sql_laws;
pub use running::run;
pub use status::Status;
