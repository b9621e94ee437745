//! Texts as statements, and where a text is wrong.
use rm_base::Text;
use sql_front::{one_meaning, parse, print};
use std::alloc::Global;
use std::test::Fail;

/// The printed form of what the text says, or nothing.
fn printed(alloc: Global, text: &[u8]) -> Result<Text, Fail> {
    match parse(alloc, text)? {
        Ok(statement) => Ok(print(alloc, &statement)?),
        Err(_) => Ok(Text::new(alloc)),
    }
}

/// Where the text is wrong.
fn fault(alloc: Global, text: &[u8]) -> Result<Option<usize>, Fail> {
    match parse(alloc, text)? {
        Ok(_) => Ok(None),
        Err(syntax) => Ok(Some(syntax.at)),
    }
}

#[test]
fn statements(rt: HostRuntime) -> Result<(), Fail> {
    let rows: [(&[u8], &[u8]); 8] = [
        (b" commit\t;", b"COMMIT"),
        (
            b"create table T (k int primary key, V text)",
            b"CREATE TABLE t ( k INT PRIMARY KEY , v TEXT )",
        ),
        (
            b"INSERT INTO t VALUES (1, 9223372036854775807), (2, 1)",
            b"INSERT INTO t VALUES ( 1 , 9223372036854775807 ) , ( 2 , 1 )",
        ),
        (
            b"insert into t (k, v) values (-1, 'it''s')",
            b"INSERT INTO t ( k , v ) VALUES ( - 1 , 'it''s' )",
        ),
        (
            b"SELECT COUNT(*), count(k+1), MIN(v), MAX(v) FROM t WHERE v IS NOT NULL",
            b"SELECT COUNT ( * ) , COUNT ( k + 1 ) , MIN ( v ) , MAX ( v ) FROM t WHERE v IS NOT NULL",
        ),
        (
            b"SELECT * FROM a JOIN b ON a.k = b.k WHERE a.v <= 3 OR NOT b.v != 4 ORDER BY a.k DESC, v ASC LIMIT 10;",
            b"SELECT * FROM a JOIN b ON a . k = b . k WHERE ( a . v <= 3 ) OR ( NOT ( b . v <> 4 ) ) ORDER BY a . k DESC , v LIMIT 10",
        ),
        (
            b"SELECT a - b - c, a + b * c, -(5), - - 5, -k, NOT k IS NULL FROM t",
            b"SELECT ( a - b ) - c , a + ( b * c ) , - ( 5 ) , - ( - 5 ) , - k , NOT ( k IS NULL ) FROM t",
        ),
        (
            b"UPDATE t SET v = v + 1, w = NULL WHERE (k) = 1",
            b"UPDATE t SET v = v + 1 , w = NULL WHERE k = 1",
        ),
    ];
    for (text, want) in rows {
        let once = printed(rt.alloc(), text)?;
        assert_eq!(rt; once.as_slice(), want);
        let twice = printed(rt.alloc(), want)?;
        assert_eq!(rt; twice.as_slice(), want);
    }
    one_meaning();
    Ok(())
}

/// A head and then one byte, so many times.
fn repeated(alloc: Global, head: &[u8], byte: u8, count: usize) -> Result<Text, Fail> {
    let mut text = Text::new(alloc);
    text.append(head)?;
    for _ in 0..count {
        text.push(byte)?;
    }
    Ok(text)
}

#[test]
fn limits(rt: HostRuntime) -> Result<(), Fail> {
    let rows: [(&[u8], u8, usize, Option<usize>); 4] = [
        (b"SELECT ", b'(', 257, Some(263)),
        (b"", b' ', 65_537, Some(65_536)),
        (b"BEGIN", b' ', 65_531, None),
        (b"BEGIN", b' ', 65_532, Some(65_536)),
    ];
    for (head, byte, count, want) in rows {
        let text = repeated(rt.alloc(), head, byte, count)?;
        assert_eq!(rt; fault(rt.alloc(), text.as_slice())?, want, "{head:?}");
    }
    Ok(())
}
