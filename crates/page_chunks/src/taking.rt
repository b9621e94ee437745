ghost use Rattle.std.specs.Prelude.{◌≡◌, ◌≤◌, ◌<◌, ◌+◌, ℕ, List, length, MatchOption, OnOk, OnErr};
ghost use Rattle.page_chunks.specs.declared.entries.Entry.{Entry};
ghost use Rattle.page_chunks.specs.Entries.{taken, taken_all, IsOutside, IsPlace};

use crate::entries::Entry;
use redo_record::{Group, Record};
use rm_base::{Lsn, WantOfMemory};
use std::alloc::Global;

/// The place of a page among `count` pages from `first` on.
fn place_of(first: u32, count: usize, page: u32) -> Option<usize>
    ensures { MatchOption result (IsOutside first count page) (IsPlace first count page) }
{
    if page < first {
        return None;
    }
    let place = (page - first) as usize;
    if place < count { Some(place) } else { None }
}

/// Takes a record of a group with that LSN to its page, where it is one of the pages from `first` on.
fn take(
    entries: &mut [Entry],
    alloc: Global,
    first: u32,
    lsn: Lsn,
    r: &Record,
) -> Result<(), WantOfMemory>
    ensures ok { OnOk result (entries.new ≡ taken first lsn r.now entries.old) }
    ensures err { OnErr result (entries.new ≡ entries.old) }
{
    match place_of(first, entries.len(), r.page().number()) {
        Some(place) => entries[place].push(alloc, lsn, r),
        None => Ok(()),
    }
}

/// Gives back a record that was taken last.
fn give_back(entries: &mut [Entry], first: u32, r: &Record)
    ensures { (es : List Entry) (lsn : ℕ) → entries.old ≡ taken first lsn r.now es → entries.new ≡ es }
{
    if let Some(place) = place_of(first, entries.len(), r.page().number()) {
        entries[place].pop();
    }
}

/// Gives back records that were taken last, the last one first.
fn give_back_all(entries: &mut [Entry], first: u32, records: &[Record])
    ensures { (es : List Entry) (lsn : ℕ) → entries.old ≡ taken_all first lsn records.now es → entries.new ≡ es }
{
    for i in (0..records.len()).rev() {
        give_back(entries, first, &records[i]);
    }
}

/// Takes the records of a group to their pages, those of them that are for the pages from `first` on.
pub(crate) fn take_all(
    entries: &mut [Entry],
    alloc: Global,
    first: u32,
    g: &Group,
) -> Result<(), WantOfMemory>
    ensures ok { OnOk result (entries.new ≡ taken_all first g.now.lsn g.now.records entries.old) }
    ensures err { OnErr result (entries.new ≡ entries.old) }
{
    let records = g.records.as_slice();
    for i in 0..records.len() {
        if take(entries, alloc, first, g.lsn, &records[i]).is_err() {
            let (done, _) = records.split_at(i);
            give_back_all(entries, first, done);
            return Err(WantOfMemory);
        }
    }
    Ok(())
}
