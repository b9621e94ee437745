//! Replies and entries as they are printed.
use crate::{entry_text, last_line, reply_text, row_line};
use rm_base::{Bytes, Items, Name, NodeId, SessionId, SessionList};
use sql_database::SqlReply;
use sql_values::{Row, Rows, Value};
use std::alloc::Global;
use std::test::Fail;
use table_machine::{Entry, SessionNames};

fn text(alloc: Global, bytes: &[u8]) -> Result<Bytes, Fail> {
    Ok(Items::from_vec(bytes.to_vec(alloc)?))
}

/// NULL, a number and a text with a quote.
fn row(alloc: Global) -> Result<Row, Fail> {
    let mut row = Row::new(alloc);
    row.push(Value::Null)?;
    row.push(Value::Int(-12))?;
    row.push(Value::Text(text(alloc, b"bo'b")?))?;
    Ok(row)
}

#[test]
fn plain_refusals(rt: HostRuntime) -> Result<(), Fail> {
    let alloc = rt.alloc();
    for (reply, want) in [
        (SqlReply::Ok(3), "ok 3\n"),
        (SqlReply::Syntax(21), "error syntax at 21\n"),
        (SqlReply::WrongType, "error wrong type\n"),
        (SqlReply::NullKey, "error null key\n"),
        (SqlReply::Overflow, "error overflow\n"),
        (SqlReply::TooLarge, "error too large\n"),
        (SqlReply::ReadOnly, "error read only\n"),
        (SqlReply::NoTransaction, "error no transaction\n"),
        (SqlReply::InTransaction, "error in transaction\n"),
        (SqlReply::Lost, "error lost\n"),
        (SqlReply::Unavailable, "error unavailable\n"),
        (SqlReply::PoolFull(8), "error pool full 8\n"),
        (SqlReply::SpaceFull, "error space full\n"),
        (SqlReply::TrxFull, "error trx full\n"),
    ] {
        assert_eq!(rt; last_line(alloc, b"", &reply)?.as_slice(), want.as_bytes());
    }
    Ok(())
}

#[test]
fn rows_come_before_their_number(rt: HostRuntime) -> Result<(), Fail> {
    let alloc = rt.alloc();
    let row = row(alloc)?;
    assert_eq!(rt;
        row_line(alloc, b"", &row)?.as_slice(),
        b"NULL, -12, 'bo''b'\n".as_slice()
    );
    let mut rows = Rows::new(alloc);
    rows.push(row)?;
    let reply = reply_text(alloc, b"a: ", &SqlReply::Rows(rows))?;
    assert_eq!(rt;
        reply.as_slice(),
        b"a: NULL, -12, 'bo''b'\na: rows 1\n".as_slice()
    );
    Ok(())
}

/// One session, `b`.
fn names(alloc: Global) -> Result<SessionNames, Fail> {
    let mut names = SessionNames::new(alloc);
    if let Some(name) = Name::new(text(alloc, b"b")?) {
        names.push(name)?;
    }
    Ok(names)
}

#[test]
fn entries_without_names(rt: HostRuntime) -> Result<(), Fail> {
    let alloc = rt.alloc();
    let session = SessionId::new(0).unwrap();
    let node = NodeId::new(1).unwrap();
    for (entry, want) in [
        (Entry::Settle, ""),
        (Entry::Snap { session }, ""),
        (Entry::Ignored { line: 10 }, "ignored 10\n"),
        (Entry::Missed { line: 4 }, "missed 4\n"),
        (Entry::Opened { node }, "open n2\n"),
    ] {
        let text = entry_text(alloc, &entry, &SessionNames::new(alloc), false)?;
        assert_eq!(rt; text.as_slice(), want.as_bytes());
    }
    Ok(())
}

#[test]
fn an_end_names_the_sessions_that_wait(rt: HostRuntime) -> Result<(), Fail> {
    let alloc = rt.alloc();
    let names = names(alloc)?;
    let mut sessions = SessionList::new();
    if names.len() == 1 {
        sessions.try_push(SessionId::new(0).unwrap()).unwrap();
    }
    let entry = Entry::End { sessions };
    assert_eq!(rt;
        entry_text(alloc, &entry, &names, true)?.as_slice(),
        b"b: unanswered\n".as_slice()
    );
    assert_eq!(rt;
        entry_text(alloc, &entry, &names, false)?.as_slice(),
        b"".as_slice()
    );
    Ok(())
}
