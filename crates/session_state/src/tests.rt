use crate::{Place, Queue, Queued, SessionRow, SessionTable, class_of, reading_laws, telling_laws};
use rm_base::{Bytes, NodeId, SessionId, Stamp, TrxId};
use sql_database::SqlReply;
use sql_statements::Stmt;
use std::test::Fail;

fn queued(stamp: u64) -> Queued {
    Queued {
        owner: SessionId::new(1),
        stamp: Stamp::new(stamp),
        end: 100,
    }
}

#[test]
fn a_queue_gives_its_first_commit_first(rt: HostRuntime) -> Result<(), Fail> {
    let mut queue = Queue::new(rt.alloc());
    assert_eq!(rt; queue.take_first(), None);
    queue.push(queued(5))?;
    queue.push(queued(6))?;
    assert_eq!(rt; queue.take_first(), Some(queued(5)));
    assert_eq!(rt; queue.take_first(), Some(queued(6)));
    assert_eq!(rt; queue.len(), 0);
    Ok(())
}

#[test]
fn a_table_of_sessions_begins_empty(rt: HostRuntime) {
    let table = SessionTable::new(rt.alloc());
    assert!(rt; table.sessions.is_empty());
    assert!(rt; table.undoing.as_slice().is_empty());
    assert_eq!(rt; table.queue.len(), 0);
}

/// A language in which nothing is a statement's text and nothing has an answer.
struct Silence;

impl table_machine::Language for Silence {
    ghost use Rattle.table_machine.specs.Silent.{silent, silent_reading, silent_rules};

    ghost language = { silent };

    ghost answer_rules = { silent_rules };

    ghost one_reading = { silent_reading };
}

/// A session that began a transaction, with its snapshot.
fn begun(rt: &HostRuntime) -> SessionRow {
    let mut row = SessionRow::idle_on(NodeId::default());
    let text = Bytes::new(rt.alloc());
    row.submit(text, class_of(Some(&Stmt::Begin)), 1, 0);
    row.snap(Stamp::new(7));
    row.reply(&SqlReply::Ok(0));
    row
}

#[test]
fn a_transaction_lasts_from_begin_to_its_commit(rt: HostRuntime) {
    let mut row = begun(&rt);
    let snap = Stamp::new(7);
    assert!(rt; row.lasting && row.asked.is_none());
    assert_eq!(rt; row.place, Place::Active { snap, trx: None });
    row.set_number(TrxId::new(4));
    assert_eq!(rt; row.place.number(), Some(TrxId::new(4)));
    row.enqueue();
    assert_eq!(rt; row.place, Place::Idle);
}

#[test]
fn a_fall_loses_what_lasts(rt: HostRuntime) {
    let mut row = begun(&rt);
    row.fall();
    assert_eq!(rt; row.place, Place::Lost);
    assert!(rt; !row.is_busy());
    row.give_up();
    assert_eq!(rt; row.place, Place::Lost);
}

#[test]
fn a_statement_that_gives_up_leaves_its_changes_to_undo(rt: HostRuntime) -> Result<(), Fail> {
    let mut table = SessionTable::new(rt.alloc());
    let session = SessionId::default();
    table.join(NodeId::default())?;
    table.snap(session, Stamp::new(7));
    table.set_number(session, TrxId::new(5));
    assert_eq!(rt; table.busy_on(NodeId::default()).len(), 1);
    table.reply(session, &SqlReply::SpaceFull);
    assert_eq!(rt; table.undoing.len(), 1);
    assert_eq!(rt; table.asking().len(), 0);
    Ok(())
}

#[test]
fn a_session_that_is_given_up_waits_for_no_commit(rt: HostRuntime) -> Result<(), Fail> {
    let mut table = SessionTable::new(rt.alloc());
    let session = SessionId::default();
    table.join(NodeId::default())?;
    table.queue.reserve(1)?;
    table.enqueue(session, Stamp::new(8), 90);
    table.give_up(session);
    table.fall(session);
    let settled = table.settle();
    assert_eq!(rt;
        settled,
        Some(Queued {
            owner: None,
            stamp: Stamp::new(8),
            end: 90
        })
    );
    telling_laws::<Silence>();
    reading_laws::<Silence>();
    Ok(())
}
