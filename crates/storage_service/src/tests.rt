ghost use Rattle.std.specs.Prelude.{◌≡◌, ◌<◌, [], IfOk};
ghost use Rattle.call_model.specs.Servers.{new_server};
ghost use Rattle.storage_service.specs.Storage.{storage_of};

use crate::*;
use log_chunks::next_groups;
use message_model::{Appended, Got};
use message_network::Reply;
use rm_base::{CallNo, Epoch, Incarnation, Lsn, NodeId, PageId, Token, WantOfMemory};
use std::alloc::Global;
use std::test::Fail;

/// Page 1028 is made, gets an item, and gets another one.
const LOG: &[u8] = b"\0\0\0\x15\0\0\0\0\0\0\0\x01\0\x01\x01\0\0\x04\x04\x04\0\
    \0\0\0\x19\0\0\0\0\0\0\0\x02\0\x01\x03\0\0\x04\x04\0\0\0\x02hi\
    \0\0\0\x18\0\0\0\0\0\0\0\x03\0\x01\x03\0\0\x04\x04\0\x01\0\x01!";

/// Storage with the log, or None where that is no log that applies.
fn opened(alloc: Global, log: &[u8]) -> Result<Option<StorageService>, WantOfMemory> {
    let Some(groups) = next_groups(alloc, log, Lsn::new(0))? else {
        return Ok(None);
    };
    if !all_apply(alloc, &groups)? {
        return Ok(None);
    }
    Ok(Some(StorageService::new(alloc, log)?))
}

fn node_one() -> Token {
    Token {
        node: NodeId::new(0).unwrap(),
        incarnation: Incarnation::new(1),
        epoch: Epoch::new(1),
    }
}

/// The page's number of items, by a call with that number; None where it is not there.
fn items(
    storage: &mut StorageService,
    alloc: Global,
    number: u64,
) -> Result<Option<u16>, WantOfMemory> {
    let page = PageId::new(1028).unwrap();
    match storage.get(alloc, &node_one(), CallNo::new(number), page, Lsn::new(3))? {
        Some(Reply::Got(Got::Image(image))) => Ok(Some(image.slots())),
        _ => Ok(None),
    }
}

#[test]
fn a_page_is_there_once_its_chunk_has_the_log(rt: HostRuntime) -> Result<(), Fail> {
    let alloc = rt.alloc();
    let mut storage = opened(alloc, LOG)?.ok_or("no log")?;
    assert_eq!(rt; (storage.tail(), storage.last().number()), (70, 3));
    assert_eq!(rt; items(&mut storage, alloc, 1)?, None);
    assert!(rt; storage.has_behind() && storage.is_behind(4));
    storage.ship_rest(alloc, 4)?;
    assert!(rt; storage.has_behind() && !storage.is_behind(4));
    storage.ship_all(alloc)?;
    assert!(rt; !storage.has_behind());
    assert_eq!(rt; items(&mut storage, alloc, 1)?, None, "it was answered");
    assert_eq!(rt; items(&mut storage, alloc, 2)?, Some(2));
    let page = PageId::new(1028).unwrap();
    assert!(rt; storage.waits(page));
    storage.fold(alloc, page)?;
    assert!(rt; !storage.waits(page));
    assert_eq!(rt;
        items(&mut storage, alloc, 2)?,
        Some(2),
        "it is answered again"
    );
    assert_eq!(rt; items(&mut storage, alloc, 1)?, None, "it is an older call");
    Ok(())
}

/// How many groups the chunk gets, one by one, until it has the log.
fn shipped_one_by_one(
    storage: &mut StorageService,
    alloc: Global,
    c: u8,
) -> Result<u8, WantOfMemory>
    requires { c < 128 }
{
    for count in 0..9 {
        if !storage.is_behind(c) {
            return Ok(count);
        }
        storage.ship_one(alloc, c)?;
    }
    Ok(9)
}

#[test]
fn a_chunk_without_a_record_gets_each_group_too(rt: HostRuntime) -> Result<(), Fail> {
    let alloc = rt.alloc();
    let mut storage = opened(alloc, LOG)?.ok_or("no log")?;
    assert_eq!(rt; shipped_one_by_one(&mut storage, alloc, 4)?, 3);
    assert_eq!(rt; shipped_one_by_one(&mut storage, alloc, 5)?, 3);
    assert_eq!(rt; items(&mut storage, alloc, 1)?, Some(2));
    Ok(())
}

/// The answer to an append that brings nothing that can be kept. None where it could be.
fn refused(
    storage: &mut StorageService,
    alloc: Global,
    number: u64,
    offset: u64,
) -> Result<Option<Reply>, WantOfMemory> {
    if offset == storage.tail() {
        return Ok(None);
    }
    storage.append(alloc, &node_one(), CallNo::new(number), offset, b"?")
}

#[test]
fn an_append_elsewhere_or_of_an_older_epoch_is_refused(rt: HostRuntime) -> Result<(), Fail> {
    let alloc = rt.alloc();
    let mut storage = opened(alloc, LOG)?.ok_or("no log")?;
    let reply = refused(&mut storage, alloc, 1, 7)?.ok_or("no answer")?;
    assert!(rt; matches!(reply, Reply::Appended(Appended::WrongOffset { tail: 70 })));
    let epoch = Epoch::new(2);
    assert!(rt; storage.epoch() <= epoch);
    storage.fence(epoch);
    let reply = refused(&mut storage, alloc, 2, 7)?.ok_or("no answer")?;
    assert!(rt; matches!(reply, Reply::Fenced(_)));
    Ok(())
}

/// The answer to an append of the log to storage that has none. None where it is no log that applies.
fn first_append(alloc: Global, log: &[u8]) -> Result<Option<Reply>, WantOfMemory> {
    let Some(groups) = next_groups(alloc, log, Lsn::new(0))? else {
        return Ok(None);
    };
    if !all_apply(alloc, &groups)? {
        return Ok(None);
    }
    let mut storage = StorageService::new(alloc, b"")?;
    storage.append(alloc, &node_one(), CallNo::new(1), 0, log)
}

#[test]
fn an_append_at_the_end_is_kept(rt: HostRuntime) -> Result<(), Fail> {
    let reply = first_append(rt.alloc(), LOG)?.ok_or("no answer")?;
    assert!(rt; matches!(reply, Reply::Appended(Appended::Kept { tail: 70 })));
    Ok(())
}
