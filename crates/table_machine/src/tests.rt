use crate::{Entry, Journal, Language, machine_laws, serving_laws};
use rm_base::SessionId;
use std::test::Fail;

/// Each text is BEGIN, and no statement has an answer but a write, which wants nothing, and a SELECT, which has no rows.
struct AllBegin;

impl Language for AllBegin {
    ghost use Rattle.table_machine.specs.Silent.{silent, silent_reading, silent_rules};

    ghost language = { silent };

    ghost answer_rules = { silent_rules };

    ghost one_reading = { silent_reading };
}

#[test]
fn a_journal_takes_entries_into_its_spare_room(rt: HostRuntime) -> Result<(), Fail> {
    let mut journal = Journal::new(rt.alloc());
    let session = SessionId::new(3).unwrap();
    journal.push(Entry::Snap { session })?;
    journal.reserve(2)?;
    assert!(rt; journal.spare() >= 2);
    journal.push_spare(Entry::Settle);
    journal.push(Entry::Forget { kept: 7 })?;
    journal.set(0, Entry::Exec { session });
    assert_eq!(rt; journal.len(), 3);
    assert!(rt;
        matches!(
            journal.as_slice(),
            [Entry::Exec { .. }, Entry::Settle, Entry::Forget { kept: 7 }]
        )
    );
    machine_laws::<AllBegin>();
    serving_laws::<AllBegin>();
    Ok(())
}
