use crate::{Ledger, ledger_laws};
use rm_base::{Items, Name, NodeId, SessionId, Stamp, WantOfMemory};
use std::alloc::Global;
use std::test::Fail;
use table_machine::Entry;

/// A language in which nothing is a statement's text and nothing has an answer.
struct Silence;

impl table_machine::Language for Silence {
    ghost use Rattle.table_machine.specs.Silent.{silent, silent_reading, silent_rules};

    ghost language = { silent };

    ghost answer_rules = { silent_rules };

    ghost one_reading = { silent_reading };
}

fn name(alloc: Global) -> Result<Option<Name>, WantOfMemory> {
    let mut text = Items::new(alloc);
    text.push(b'a')?;
    Ok(Name::new(text))
}

/// A session joins, where its name is one.
fn join(alloc: Global, ledger: &mut Ledger) -> Result<Option<SessionId>, WantOfMemory> {
    match name(alloc)? {
        None => Ok(None),
        Some(name) => ledger.join(name, NodeId::default()),
    }
}

#[test]
fn a_session_that_joins_is_noted_and_may_submit(rt: HostRuntime) -> Result<(), Fail> {
    let mut ledger = Ledger::new(rt.alloc(), Stamp::new(3));
    let session = join(rt.alloc(), &mut ledger)?;
    assert_eq!(rt; session, SessionId::new(0));
    assert!(rt; matches!(ledger.journal.as_slice(), [Entry::Join { .. }]));
    assert!(rt; ledger.may_submit(SessionId::default()));
    assert!(rt; ledger.has_room());
    ledger_laws::<Silence>();
    Ok(())
}
