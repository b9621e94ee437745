//! Whole sessions of the program: an input and all that it is answered.
use crate::running::run;
use crate::status::Status;
use crate::tests::serve;
use rm_base::Items;
use rm_env::{MemSink, MemSource};
use std::alloc::Global;
use std::process::Abort;
use std::test::Fail;

/// How a run over the input ends, and what it wrote, where the read and the write with these numbers
/// fail. None has the number 0.
fn ran(alloc: Global, input: &[u8], read: u64, write: u64) -> Result<(Status, Vec<u8>), Fail> {
    let bytes = Items::from_vec(input.to_vec(alloc)?);
    let mut source = MemSource::new(bytes, vec![in alloc; read]?);
    let mut sink = MemSink::new(alloc, vec![in alloc; write]?);
    let status = run(alloc, &serve(alloc)?, &mut source, &mut sink, &mut None);
    Ok((status, sink.taken().to_vec(alloc)?))
}

/// The input is answered so.
fn answers(rt: &impl Abort, alloc: Global, input: &str, want: &str) -> Result<(), Fail> {
    let (status, output) = ran(alloc, input.as_bytes(), 0, 0)?;
    assert_eq!(rt; status, Status::Done);
    assert_eq!(rt; output.as_slice(), want.as_bytes(), "at {input}");
    Ok(())
}

const INSERT_AND_SELECT: (&str, &str) = (
    "CREATE TABLE t (k INT PRIMARY KEY, v INT)
INSERT INTO t VALUES (1, 10), (2, 20)
SELECT * FROM t
",
    "ok 0
ok 2
1, 10
2, 20
rows 2
",
);

const NULLS: (&str, &str) = (
    "CREATE TABLE t (k INT PRIMARY KEY, v INT)
INSERT INTO t VALUES (1, NULL), (2, 5)
SELECT k FROM t WHERE v = 5 OR v <> 5
SELECT k FROM t WHERE NOT (v = 5)
SELECT k FROM t WHERE v IS NULL
SELECT COUNT(*), COUNT(v), SUM(v) FROM t
SELECT SUM(v), MIN(v), COUNT(v) FROM t WHERE k > 9
",
    "ok 0
ok 2
2
rows 1
rows 0
1
rows 1
2, 1, 5
rows 1
NULL, NULL, 0
rows 1
",
);

const OVERFLOW_IN_A_TRANSACTION: (&str, &str) = (
    "CREATE TABLE t (k INT PRIMARY KEY, v INT)
BEGIN
INSERT INTO t VALUES (1, 9223372036854775807), (2, 1)
SELECT SUM(v) FROM t
COMMIT
SELECT COUNT(*) FROM t
",
    "ok 0
ok 0
ok 2
error overflow
ok 0
2
rows 1
",
);

const REFUSALS: (&str, &str) = (
    "CREATE TABLE t (k INT PRIMARY KEY, v INT)
INSERT INTO t VALUES (1, 10)
SELEC 1
SELECT k FROM t WHERE
INSERT INTO t VALUES (1, 99999999999999999999)
SELECT * FROM u
SELECT z FROM t
SELECT k FROM t WHERE k = 'a'
INSERT INTO t VALUES (NULL, 1)
INSERT INTO t VALUES (1, 1)
CREATE TABLE t (k INT PRIMARY KEY, v INT)
COMMIT
BEGIN
BEGIN
",
    "ok 0
ok 1
error syntax at 0
error syntax at 21
error syntax at 25
error no table u
error no column z
error wrong type
error null key
error duplicate 1
error table exists t
error no transaction
ok 0
error in transaction
",
);

const AS_A_USER_HAS_IT: (&str, &str) = (
    "CREATE TABLE c (id INT PRIMARY KEY, n TEXT);
CREATE TABLE o (id INT PRIMARY KEY, c INT);
insert into c values (1, 'ann'), (2, 'bo''b');
INSERT INTO o (c, id) VALUES (2, 10), (1, 11), (NULL, 12);
SELECT o.id, n FROM o JOIN c ON c.id = o.c ORDER BY n DESC LIMIT 1;
UPDATE o SET c = c + 1 WHERE id >= 11;
SELECT * FROM o;
DELETE FROM o WHERE c = 2;
",
    "ok 0
ok 0
ok 2
ok 3
10, 'bo''b'
rows 1
ok 2
10, 2
11, 2
12, NULL
rows 3
ok 2
",
);

const ROLLBACKS: (&str, &str) = (
    "CREATE TABLE t (k INT PRIMARY KEY, v INT)
BEGIN
INSERT INTO t VALUES (1, 10)
SELECT * FROM t
ROLLBACK
SELECT * FROM t
ROLLBACK
BEGIN
INSERT INTO t VALUES (1, 10)
INSERT INTO t VALUES (2, 20), (1, 11)
CREATE TABLE u (k TEXT PRIMARY KEY)
COMMIT
DELETE FROM t WHERE k < 5
SELECT * FROM t
SELECT * FROM u
",
    "ok 0
ok 0
ok 1
1, 10
rows 1
ok 0
rows 0
error no transaction
ok 0
ok 1
error duplicate 1
ok 0
ok 0
ok 1
rows 0
rows 0
",
);

#[test]
fn sessions_as_they_are_answered(rt: HostRuntime) -> Result<(), Fail> {
    for (input, want) in [
        INSERT_AND_SELECT,
        NULLS,
        OVERFLOW_IN_A_TRANSACTION,
        REFUSALS,
        AS_A_USER_HAS_IT,
        ROLLBACKS,
    ] {
        answers(&rt, rt.alloc(), input, want)?;
    }
    Ok(())
}

/// The letter x, so many times.
fn letters(alloc: Global, count: usize) -> Result<String, Fail> {
    let mut text = String::new(alloc);
    for _ in 0..count {
        text.push_str("x")?;
    }
    Ok(text)
}

/// Keys at the ends of their range, and texts as long as a key and a record can be, and by one longer.
fn limits(alloc: Global) -> Result<String, Fail> {
    let longest_key = letters(alloc, 64)?;
    let longest_text = letters(alloc, 973)?;
    Ok(format!(in alloc;
        "CREATE TABLE t (k INT PRIMARY KEY, v INT)
INSERT INTO t VALUES (0, 1), (9223372036854775807, 2), (-9223372036854775808, 3)
SELECT k FROM t
CREATE TABLE x (k TEXT PRIMARY KEY)
INSERT INTO x VALUES ('{longest_key}')
INSERT INTO x VALUES ('x{longest_key}')
CREATE TABLE s (k INT PRIMARY KEY, w TEXT)
INSERT INTO s VALUES (1, '{longest_text}')
INSERT INTO s VALUES (2, 'x{longest_text}')
"
    )?)
}

const LIMITS_OUTPUT: &str = "ok 0
ok 3
-9223372036854775808
0
9223372036854775807
rows 3
ok 0
ok 1
error too large
ok 0
ok 1
error too large
";

#[test]
fn keys_and_records_have_their_limits(rt: HostRuntime) -> Result<(), Fail> {
    let input = limits(rt.alloc())?;
    answers(&rt, rt.alloc(), input.as_str(), LIMITS_OUTPUT)
}

#[test]
fn a_table_of_700_rows_that_come_downwards(rt: HostRuntime) -> Result<(), Fail> {
    let alloc = rt.alloc();
    let text = letters(alloc, 900)?;
    let mut input = String::from_str(alloc, "CREATE TABLE s (k INT PRIMARY KEY, w TEXT)\n")?;
    let mut want = String::from_str(alloc, "ok 0\n")?;
    for key in (1..=700).rev() {
        writeln!(input, "INSERT INTO s VALUES ({key}, '{text}')")?;
        want.push_str("ok 1\n")?;
    }
    input.push_str("SELECT k FROM s WHERE k > 697\nSELECT COUNT(*) FROM s\n")?;
    want.push_str("698\n699\n700\nrows 3\n700\nrows 1\n")?;
    answers(&rt, alloc, input.as_str(), want.as_str())
}

const FOUR_INSERTS: &str = "CREATE TABLE t (k INT PRIMARY KEY, v INT)
INSERT INTO t VALUES (1, 10)
INSERT INTO t VALUES (2, 20)
INSERT INTO t VALUES (3, 30)
INSERT INTO t VALUES (4, 40)
";

#[test]
fn a_fault_ends_the_run(rt: HostRuntime) -> Result<(), Fail> {
    for (read, write, end, want) in [
        (0, 5, Status::WriteFault, "ok 0\nok 1\nok 1\nok 1\n"),
        (1, 0, Status::ReadFault, ""),
    ] {
        let (status, output) = ran(rt.alloc(), FOUR_INSERTS.as_bytes(), read, write)?;
        assert_eq!(rt; status, end);
        assert_eq!(rt; output.as_slice(), want.as_bytes());
    }
    Ok(())
}

#[test]
fn as_many_bytes_as_are_answered(rt: HostRuntime) -> Result<(), Fail> {
    let alloc = rt.alloc();
    for (length, end, want) in [
        (4_194_304, Status::Done, ""),
        (4_194_305, Status::TooLong, "too long\n"),
    ] {
        let input = vec![in alloc; b'\n'; length]?;
        let (status, output) = ran(alloc, input.as_slice(), 0, 0)?;
        assert_eq!(rt; status, end);
        assert_eq!(rt; output.as_slice(), want.as_bytes());
    }
    Ok(())
}

#[test]
fn the_last_line_needs_no_lf(rt: HostRuntime) -> Result<(), Fail> {
    let (input, want) = INSERT_AND_SELECT;
    answers(&rt, rt.alloc(), input.trim_end(), want)
}
