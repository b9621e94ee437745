//! What is answered: values, refusals, order, and what is evaluated at all.
use crate::running::session;
use rm_base::WantOfMemory;

#[test]
fn keys_stand_in_their_order(rt: HostRuntime) -> Result<(), WantOfMemory> {
    let lines = [
        ("CREATE TABLE t (k INT PRIMARY KEY, v INT)", "ok 0\n"),
        (
            "INSERT INTO t VALUES (0, 1), (9223372036854775807, 2), (-9223372036854775808, 3)",
            "ok 3\n",
        ),
        (
            "SELECT k FROM t",
            "-9223372036854775808\n0\n9223372036854775807\nrows 3\n",
        ),
    ];
    session(&rt, rt.alloc(), &lines)
}

#[test]
fn null_is_neither_yes_nor_no(rt: HostRuntime) -> Result<(), WantOfMemory> {
    let lines = [
        ("CREATE TABLE t (k INT PRIMARY KEY, v INT)", "ok 0\n"),
        ("INSERT INTO t VALUES (1, NULL), (2, 5)", "ok 2\n"),
        ("SELECT k FROM t WHERE v = 5 OR v <> 5", "2\nrows 1\n"),
        ("SELECT k FROM t WHERE NOT (v = 5)", "rows 0\n"),
        ("SELECT k FROM t WHERE v IS NULL", "1\nrows 1\n"),
        ("SELECT k FROM t WHERE v IS NOT NULL", "2\nrows 1\n"),
        ("SELECT v + 1, v * 0 FROM t", "NULL, NULL\n6, 0\nrows 2\n"),
        (
            "SELECT COUNT(*), COUNT(v), SUM(v) FROM t",
            "2, 1, 5\nrows 1\n",
        ),
        (
            "SELECT SUM(v), MIN(v), COUNT(v) FROM t WHERE k > 9",
            "NULL, NULL, 0\nrows 1\n",
        ),
    ];
    session(&rt, rt.alloc(), &lines)
}

#[test]
fn totals_skip_null(rt: HostRuntime) -> Result<(), WantOfMemory> {
    let lines = [
        (
            "CREATE TABLE t (k INT PRIMARY KEY, v INT, w TEXT)",
            "ok 0\n",
        ),
        (
            "SELECT COUNT(*), COUNT(v), SUM(v), MIN(v), MAX(w) FROM t",
            "0, 0, NULL, NULL, NULL\nrows 1\n",
        ),
        (
            "INSERT INTO t VALUES (1, NULL, 'b'), (2, 5, NULL), (3, -3, 'B')",
            "ok 3\n",
        ),
        (
            "SELECT COUNT(*), COUNT(v), SUM(v) FROM t",
            "3, 2, 2\nrows 1\n",
        ),
        (
            "SELECT MIN(v), MAX(v), MIN(w), MAX(w) FROM t",
            "-3, 5, 'B', 'b'\nrows 1\n",
        ),
        (
            "SELECT MIN(v), MAX(v), COUNT(v), COUNT(*) FROM t WHERE k = 1",
            "NULL, NULL, 0, 1\nrows 1\n",
        ),
    ];
    session(&rt, rt.alloc(), &lines)
}

#[test]
fn sums_overflow_by_their_exact_total(rt: HostRuntime) -> Result<(), WantOfMemory> {
    let lines = [
        ("CREATE TABLE t (k INT PRIMARY KEY, v INT)", "ok 0\n"),
        (
            "INSERT INTO t VALUES (1, 9223372036854775807), (2, 1)",
            "ok 2\n",
        ),
        ("SELECT SUM(v) FROM t", "error overflow\n"),
        ("SELECT COUNT(*) FROM t", "2\nrows 1\n"),
        ("INSERT INTO t VALUES (3, -5)", "ok 1\n"),
        ("SELECT SUM(v) FROM t", "9223372036854775803\nrows 1\n"),
        ("SELECT SUM(v + 1) FROM t", "error overflow\n"),
    ];
    session(&rt, rt.alloc(), &lines)
}

#[test]
fn refusals_by_their_cause(rt: HostRuntime) -> Result<(), WantOfMemory> {
    let lines = [
        ("CREATE TABLE t (k INT PRIMARY KEY, v INT)", "ok 0\n"),
        ("INSERT INTO t VALUES (1, 10)", "ok 1\n"),
        ("SELEC 1", "error syntax at 0\n"),
        ("SELECT k FROM t WHERE", "error syntax at 21\n"),
        (
            "INSERT INTO t VALUES (1, 99999999999999999999)",
            "error syntax at 25\n",
        ),
        ("SELECT * FROM u", "error no table u\n"),
        ("SELECT z FROM t", "error no column z\n"),
        ("SELECT k FROM t WHERE k = 'a'", "error wrong type\n"),
        ("INSERT INTO t VALUES (NULL, 1)", "error null key\n"),
        ("INSERT INTO t VALUES (1, 1)", "error duplicate 1\n"),
        (
            "CREATE TABLE t (k INT PRIMARY KEY, v INT)",
            "error table exists t\n",
        ),
        ("COMMIT", "error no transaction\n"),
    ];
    session(&rt, rt.alloc(), &lines)
}

#[test]
fn a_users_session(rt: HostRuntime) -> Result<(), WantOfMemory> {
    let lines = [
        ("CREATE TABLE c (id INT PRIMARY KEY, n TEXT);", "ok 0\n"),
        ("CREATE TABLE o (id INT PRIMARY KEY, c INT);", "ok 0\n"),
        ("insert into c values (1, 'ann'), (2, 'bo''b');", "ok 2\n"),
        (
            "INSERT INTO o (c, id) VALUES (2, 10), (1, 11), (NULL, 12);",
            "ok 3\n",
        ),
        (
            "SELECT o.id, n FROM o JOIN c ON c.id = o.c ORDER BY n DESC LIMIT 1;",
            "10, 'bo''b'\nrows 1\n",
        ),
        ("UPDATE o SET c = c + 1 WHERE id >= 11;", "ok 2\n"),
        ("SELECT * FROM o;", "10, 2\n11, 2\n12, NULL\nrows 3\n"),
        (
            "SELECT * FROM o JOIN c ON c.id = o.c WHERE o.id > 10",
            "11, 2, 2, 'bo''b'\nrows 1\n",
        ),
        (
            "SELECT id FROM o JOIN c ON c.id = o.c",
            "error no column id\n",
        ),
        ("DELETE FROM o WHERE c = 2;", "ok 2\n"),
        ("SELECT * FROM o;", "12, NULL\nrows 1\n"),
    ];
    session(&rt, rt.alloc(), &lines)
}

#[test]
fn short_cuts(rt: HostRuntime) -> Result<(), WantOfMemory> {
    let lines = [
        ("CREATE TABLE t (k INT PRIMARY KEY, v INT)", "ok 0\n"),
        ("INSERT INTO t VALUES (1, NULL)", "ok 1\n"),
        (
            "SELECT k FROM t WHERE k <> k AND 9223372036854775807 + k > 0",
            "rows 0\n",
        ),
        (
            "SELECT k FROM t WHERE v = 7 AND 9223372036854775807 + k > 0",
            "error overflow\n",
        ),
        (
            "SELECT k FROM t WHERE k = k AND 9223372036854775807 + k > 0",
            "error overflow\n",
        ),
        (
            "SELECT k FROM t WHERE k = k OR 9223372036854775807 + k > 0",
            "1\nrows 1\n",
        ),
        (
            "SELECT k FROM t WHERE v = 7 OR 9223372036854775807 + k > 0",
            "error overflow\n",
        ),
        (
            "SELECT k FROM t WHERE k <> k OR 9223372036854775807 + k > 0",
            "error overflow\n",
        ),
        ("SELECT k FROM t WHERE v = 7 AND k <> k", "rows 0\n"),
        ("SELECT k FROM t WHERE v = 7 OR k = k", "1\nrows 1\n"),
    ];
    session(&rt, rt.alloc(), &lines)
}

#[test]
fn what_is_evaluated(rt: HostRuntime) -> Result<(), WantOfMemory> {
    let lines = [
        ("CREATE TABLE t (k INT PRIMARY KEY, v INT)", "ok 0\n"),
        (
            "SELECT 9223372036854775807 + 1 FROM t WHERE 9223372036854775807 + 1 > 0",
            "rows 0\n",
        ),
        (
            "SELECT SUM(9223372036854775807 + 1) FROM t",
            "NULL\nrows 1\n",
        ),
        ("UPDATE t SET v = 9223372036854775807 + 1", "ok 0\n"),
        ("INSERT INTO t VALUES (1, NULL), (2, 7)", "ok 2\n"),
        (
            "SELECT k FROM t WHERE k = 2 OR v = 7 AND 9223372036854775807 + k > 0",
            "error overflow\n",
        ),
        (
            "SELECT k FROM t WHERE NULL + 9223372036854775807 + 1 > 0",
            "rows 0\n",
        ),
        (
            "SELECT k FROM t WHERE NULL + (9223372036854775807 + 1) > 0",
            "error overflow\n",
        ),
        (
            "SELECT 9223372036854775807 + k FROM t LIMIT 0",
            "error overflow\n",
        ),
        (
            "SELECT 9223372036854775807 + k FROM t WHERE k > 2 LIMIT 0",
            "rows 0\n",
        ),
    ];
    session(&rt, rt.alloc(), &lines)
}

#[test]
fn order_is_stable_and_null_comes_last_in_desc(rt: HostRuntime) -> Result<(), WantOfMemory> {
    let lines = [
        ("CREATE TABLE t (k INT PRIMARY KEY, v INT)", "ok 0\n"),
        (
            "INSERT INTO t VALUES (1, 5), (2, NULL), (3, 5), (4, 7)",
            "ok 4\n",
        ),
        ("SELECT k FROM t ORDER BY v DESC", "4\n1\n3\n2\nrows 4\n"),
        ("SELECT k FROM t ORDER BY v", "2\n1\n3\n4\nrows 4\n"),
        ("SELECT k FROM t ORDER BY v LIMIT 2", "2\n1\nrows 2\n"),
        ("SELECT k FROM t ORDER BY v, k DESC", "2\n3\n1\n4\nrows 4\n"),
        ("SELECT k FROM t LIMIT 0", "rows 0\n"),
    ];
    session(&rt, rt.alloc(), &lines)
}
