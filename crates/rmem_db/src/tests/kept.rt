//! What a run leaves: the log of what was committed.
use crate::running::run;
use crate::tests::serve;
use rm_base::Items;
use rm_env::{QuietSink, QuietSource};
use std::alloc::Global;
use std::test::Fail;

const MADE: &str =
    "CREATE TABLE t (k INT PRIMARY KEY, v INT)\nINSERT INTO t VALUES (1, 10), (2, 20)\n";

/// The log that is left by a run over the statements behind `MADE`.
fn log_behind(alloc: Global, more: &str) -> Result<Vec<u8>, Fail> {
    let mut input = MADE.as_bytes().to_vec(alloc)?;
    input.extend_from_slice(more.as_bytes())?;
    let mut source = QuietSource::new(Items::from_vec(input));
    let mut sink = QuietSink::new(alloc);
    let mut kept = None;
    run(alloc, &serve(alloc)?, &mut source, &mut sink, &mut kept);
    match kept {
        Some(tables) => Ok(tables.log().to_vec(alloc)?),
        None => Ok(Vec::new(alloc)),
    }
}

#[test]
fn the_log_has_what_was_committed_and_no_more(rt: HostRuntime) -> Result<(), Fail> {
    let alloc = rt.alloc();
    let made = log_behind(alloc, "")?;
    assert!(rt; !made.is_empty());
    for more in [
        "SELECT * FROM t\n",
        "INSERT INTO t VALUES (3, 5), (2, 5)\n",
        "BEGIN\nDELETE FROM t\nROLLBACK\n",
        "BEGIN\nDELETE FROM t\n",
    ] {
        let log = log_behind(alloc, more)?;
        assert_eq!(rt; log.as_slice(), made.as_slice(), "behind {more}");
    }
    let deleted = log_behind(alloc, "DELETE FROM t\n")?;
    assert!(rt; deleted.len() > made.len() && deleted.starts_with(made.as_slice()));
    let committed = log_behind(alloc, "BEGIN\nDELETE FROM t\nCOMMIT\n")?;
    assert_eq!(rt; committed.as_slice(), deleted.as_slice());
    Ok(())
}
