use crate::*;
use message_model::Appended;
use rm_base::{Bytes, Epoch, Lsn, WantOfMemory};
use std::alloc::Global;
use std::test::Fail;

/// A page is made, gets an item, and gets another one.
const LOG: [&[u8]; 3] = [
    b"\0\0\0\x15\0\0\0\0\0\0\0\x01\0\x01\x01\0\0\x04\x04\x04\0",
    b"\0\0\0\x19\0\0\0\0\0\0\0\x02\0\x01\x03\0\0\x04\x04\0\0\0\x02hi",
    b"\0\0\0\x18\0\0\0\0\0\0\0\x03\0\x01\x03\0\0\x04\x04\0\x01\0\x01!",
];

/// A store with the log, or None where it is no log.
fn opened(alloc: Global, log: &[u8]) -> Result<Option<LogStore>, WantOfMemory> {
    match next_groups(alloc, log, Lsn::new(0))? {
        Some(_) => Ok(Some(LogStore::new(alloc, log)?)),
        None => Ok(None),
    }
}

/// An append of groups that go on. None where they do not.
fn appended(
    store: &mut LogStore,
    alloc: Global,
    epoch: u64,
    offset: u64,
    bytes: &[u8],
) -> Result<Option<Appended>, WantOfMemory> {
    match next_groups(alloc, bytes, store.last())? {
        Some(_) => Ok(Some(store.append(alloc, Epoch::new(epoch), offset, bytes)?)),
        None => Ok(None),
    }
}

#[test]
fn an_older_epoch_is_refused_first_and_then_a_wrong_offset(rt: HostRuntime) -> Result<(), Fail> {
    let alloc = rt.alloc();
    let mut store = opened(alloc, LOG[0])?.ok_or("no log")?;
    assert_eq!(rt; (store.epoch().number(), store.tail()), (1, 21));
    let epoch = Epoch::new(2);
    assert!(rt; store.epoch() <= epoch);
    store.fence(epoch);
    let rows = [
        (1, 7, Appended::Fenced { epoch }),
        (1, 21, Appended::Fenced { epoch }),
        (2, 7, Appended::WrongOffset { tail: 21 }),
    ];
    for (of, offset, answer) in rows {
        assert_eq!(rt;
            appended(&mut store, alloc, of, offset, LOG[1])?,
            Some(answer)
        );
        assert_eq!(rt; (store.tail(), store.last().number()), (21, 1));
    }
    let kept = appended(&mut store, alloc, 2, 21, LOG[1])?;
    assert_eq!(rt; kept, Some(Appended::Kept { tail: 46 }));
    let kept = appended(&mut store, alloc, 3, 46, LOG[2])?;
    assert_eq!(rt; kept, Some(Appended::Kept { tail: 70 }));
    for lsn in [0, 4] {
        assert!(rt; store.group(Lsn::new(lsn)).is_none());
    }
    for lsn in [1, 2, 3] {
        let group = store.group(Lsn::new(lsn)).ok_or("no group")?;
        assert_eq!(rt; group.lsn.number(), lsn);
    }
    let chunk = store.chunk(0).ok_or("no chunk")?;
    assert!(rt; chunk.starts_with(LOG[0]) && chunk.ends_with(LOG[2]));
    assert!(rt; store.chunk(1).is_none());
    assert!(rt; next_groups(alloc, LOG[1], Lsn::new(0))?.is_none());
    Ok(())
}

/// A group of 81,294 bytes with that LSN: twenty patches of 4,055 bytes.
fn large(alloc: Global, lsn: u8) -> Result<Bytes, WantOfMemory> {
    let mut bytes = Bytes::new(alloc);
    bytes.append(b"\0\x01\x3d\x8e\0\0\0\0\0\0\0")?;
    bytes.push(lsn)?;
    bytes.append(b"\0\x14")?;
    for _ in 0..20 {
        bytes.append(b"\x02\0\0\0\0\0\x20\x0f\xd7")?;
        for _ in 0..4055 {
            bytes.push(lsn)?;
        }
    }
    Ok(bytes)
}

#[test]
fn the_bytes_stand_in_chunks(rt: HostRuntime) -> Result<(), Fail> {
    let alloc = rt.alloc();
    let mut log = large(alloc, 1)?;
    let mut store = opened(alloc, log.as_slice())?.ok_or("no log")?;
    let more = large(alloc, 2)?;
    let kept = appended(&mut store, alloc, 1, 81_294, more.as_slice())?;
    assert_eq!(rt; kept, Some(Appended::Kept { tail: 162_588 }));
    log.append(more.as_slice())?;
    let mut chunks = Bytes::new(alloc);
    for (i, size) in [65_536, 65_536, 31_516].iter().enumerate() {
        let chunk = store.chunk(i).ok_or("no chunk")?;
        assert_eq!(rt; chunk.len(), *size, "chunk {i}");
        chunks.append(chunk)?;
    }
    assert!(rt; store.chunk(3).is_none());
    assert_eq!(rt; chunks.as_slice(), log.as_slice());
    Ok(())
}
