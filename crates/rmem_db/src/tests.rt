//! What no clause says: whole sessions, and sources and sinks that fail.
mod kept;
mod long_session;
mod plain;
mod rows;
mod runs;
mod streams;

use std::alloc::Global;
use std::test::Fail;

/// The words `serve` alone.
fn serve(alloc: Global) -> Result<Vec<String>, Fail> {
    let mut words = Vec::new(alloc);
    words.push(String::from_str(alloc, "serve")?)?;
    Ok(words)
}
