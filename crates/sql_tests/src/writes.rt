//! Changes, and the order of their refusals.
use crate::running::{long_session, session};
use rm_base::WantOfMemory;

#[test]
fn set_reads_the_old_row(rt: HostRuntime) -> Result<(), WantOfMemory> {
    let lines = [
        ("CREATE TABLE t (k INT PRIMARY KEY, a INT, b INT)", "ok 0\n"),
        ("INSERT INTO t VALUES (1, 2, 3), (5, 0, 0)", "ok 2\n"),
        ("UPDATE t SET a = b, b = a WHERE k = 1", "ok 1\n"),
        ("SELECT * FROM t", "1, 3, 2\n5, 0, 0\nrows 2\n"),
        ("UPDATE t SET k = 2", "error wrong type\n"),
        (
            "UPDATE t SET a = a + 9223372036854775805 WHERE k = 1",
            "error overflow\n",
        ),
        ("INSERT INTO t (k) VALUES (7)", "ok 1\n"),
        ("SELECT * FROM t WHERE k = 7", "7, NULL, NULL\nrows 1\n"),
        ("DELETE FROM t WHERE a IS NULL", "ok 1\n"),
        ("SELECT COUNT(*) FROM t", "2\nrows 1\n"),
    ];
    session(&rt, rt.alloc(), &lines)
}

#[test]
fn refusals_of_tuples_in_their_order(rt: HostRuntime) -> Result<(), WantOfMemory> {
    let lines = [
        ("CREATE TABLE t (k INT PRIMARY KEY, v INT)", "ok 0\n"),
        ("INSERT INTO t VALUES (1, 0), (5, 0)", "ok 2\n"),
        (
            "INSERT INTO t VALUES (1, 1), (NULL, 1), (2, 9223372036854775807 + 1)",
            "error overflow\n",
        ),
        ("INSERT INTO t VALUES (1, 1), (NULL, 1)", "error null key\n"),
        (
            "INSERT INTO t VALUES (9, 0), (5, 0), (9, 0), (1, 0)",
            "error duplicate 5\n",
        ),
        (
            "INSERT INTO t VALUES (9, 0), (8, 0), (9, 0), (5, 0)",
            "error duplicate 9\n",
        ),
        ("SELECT COUNT(*) FROM t", "2\nrows 1\n"),
    ];
    session(&rt, rt.alloc(), &lines)
}

#[test]
fn keys_and_records_have_limits(rt: HostRuntime) -> Result<(), WantOfMemory> {
    let lines = [
        ("CREATE TABLE x (k TEXT PRIMARY KEY)", 0, "", "ok 0\n"),
        ("INSERT INTO x VALUES ('", 64, "')", "ok 1\n"),
        ("INSERT INTO x VALUES ('", 65, "')", "error too large\n"),
        (
            "CREATE TABLE s (k INT PRIMARY KEY, w TEXT)",
            0,
            "",
            "ok 0\n",
        ),
        ("INSERT INTO s VALUES (1, '", 973, "')", "ok 1\n"),
        ("INSERT INTO s VALUES (2, '", 974, "')", "error too large\n"),
        ("UPDATE s SET w = '", 974, "'", "error too large\n"),
        ("UPDATE s SET w = '", 1, "'", "ok 1\n"),
        ("SELECT * FROM s", 0, "", "1, 'x'\nrows 1\n"),
    ];
    long_session(&rt, rt.alloc(), &lines)
}

#[test]
fn too_large_stands_between_null_key_and_duplicate(rt: HostRuntime) -> Result<(), WantOfMemory> {
    let lines = [
        ("CREATE TABLE x (k TEXT PRIMARY KEY)", 0, "", "ok 0\n"),
        ("INSERT INTO x VALUES ('a')", 0, "", "ok 1\n"),
        (
            "INSERT INTO x VALUES ('",
            65,
            "'), (NULL)",
            "error null key\n",
        ),
        (
            "INSERT INTO x VALUES ('a'), ('",
            65,
            "')",
            "error too large\n",
        ),
        (
            "INSERT INTO x VALUES ('b'), ('a'), ('",
            64,
            "')",
            "error duplicate 'a'\n",
        ),
        ("SELECT k FROM x WHERE k < '", 65, "'", "'a'\nrows 1\n"),
        ("SELECT k FROM x WHERE k <> NULL", 0, "", "rows 0\n"),
        ("DELETE FROM x WHERE k = '", 65, "'", "ok 0\n"),
        ("DELETE FROM x WHERE k <> '", 65, "'", "ok 1\n"),
    ];
    long_session(&rt, rt.alloc(), &lines)
}
