ghost use Rattle.std.specs.Prelude.{◌≡◌, ◌≤◌, ◌<◌, ◌+◌, length, take, OnOk, OnErr, if◌then◌else◌, nat_lt, ◌-◌};
ghost use Rattle.log_chunks.specs.Log.{AreLog};
ghost use Rattle.page_chunks.specs.Chunk.{HasGot};
ghost use Rattle.storage_service.specs.Storage.{AllApply};
ghost use Rattle.storage_service.specs.Keeping.{IsBrought, IsFront};

use crate::noting::NotedLog;
use page_chunks::PageChunk;
use rm_base::{Lsn, WantOfMemory};
use std::alloc::Global;

/// Hands the chunk the next group of the log.
pub(crate) fn hand_next(
    chunk: &mut PageChunk,
    alloc: Global,
    log: &NotedLog,
) -> Result<(), WantOfMemory>
    requires log { AreLog log.now.groups }
    requires applies { AllApply log.now.groups }
    requires chunk { chunk.old.number < 128 }
    requires got { HasGot chunk.old (take chunk.old.applied log.now.groups) }
    requires behind { chunk.old.applied < length log.now.groups }
    ensures ok { OnOk result (IsBrought log.now.groups chunk.old (chunk.old.applied + 1) chunk.new) }
    ensures err { OnErr result (chunk.new ≡ chunk.old) }
{
    let _last = log.last().number();
    let next = Lsn::new(chunk.applied().number() + 1);
    let Some(group) = log.group(next) else {
        unreachable!()
    };
    chunk.ship(alloc, group)
}

/// Brings the chunk the next group: hands it over, or passes over it where neither it nor a later one
/// has a record for the chunk.
pub(crate) fn bring_next(
    chunk: &mut PageChunk,
    alloc: Global,
    log: &NotedLog,
) -> Result<(), WantOfMemory>
    requires log { AreLog log.now.groups }
    requires applies { AllApply log.now.groups }
    requires chunk { chunk.old.number < 128 }
    requires got { HasGot chunk.old (take chunk.old.applied log.now.groups) }
    requires behind { chunk.old.applied < length log.now.groups }
    ensures ok { OnOk result (IsBrought log.now.groups chunk.old (chunk.old.applied + 1) chunk.new) }
    ensures err { OnErr result (chunk.new ≡ chunk.old) }
{
    let applied = chunk.applied().number();
    let noted = log.noted(chunk.number());
    if applied < noted {
        return hand_next(chunk, alloc, log);
    }
    let _last = log.last().number();
    let next = Lsn::new(applied + 1);
    chunk.skip(next);
    Ok(())
}

/// Hands the chunk the rest of the log: group by group to the last one with a record for it, and all
/// that follow at once. Where memory is wanting, it keeps what it got.
pub(crate) fn bring_to_end(
    chunk: &mut PageChunk,
    alloc: Global,
    log: &NotedLog,
) -> Result<(), WantOfMemory>
    requires log { AreLog log.now.groups }
    requires applies { AllApply log.now.groups }
    requires chunk { chunk.old.number < 128 }
    requires got { HasGot chunk.old (take chunk.old.applied log.now.groups) }
    requires fits { chunk.old.applied ≤ length log.now.groups }
    ensures brought { IsBrought log.now.groups chunk.old chunk.new.applied chunk.new }
    ensures ok { OnOk result (chunk.new.applied ≡ length log.now.groups) }
{
    'groups: while chunk.applied().number() < log.noted(chunk.number()) {
        hand_next(chunk, alloc, log)?;
    }
    let last = log.last();
    chunk.skip(last);
    Ok(())
}

/// The count of chunks that are behind, after one of them got a group: one less where it was its last.
pub(crate) fn without_done(behind: usize, chunk: &PageChunk, last: Lsn) -> usize
    ensures { result ≡ (if nat_lt chunk.now.applied last then behind else behind - 1) }
{
    if chunk.applied() < last {
        return behind;
    }
    behind.saturating_sub(1)
}
