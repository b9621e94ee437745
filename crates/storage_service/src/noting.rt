ghost use Rattle.std.specs.Prelude.{◌≡◌, ◌≤◌, ◌<◌, ◌/◌, ℕ, true, List, length, drop, find, ◌==◌, if◌then◌else◌, IfOk, OnOk, OnErr};
ghost use Rattle.std.specs.Option.{option_copied};
ghost use Rattle.redo_record.specs.Spelling.{Spells};
ghost use Rattle.redo_record.specs.Effect.{CountsFrom};
ghost use Rattle.log_chunks.specs.Log.{GoesOn, AreLog, tail_of, answer_to, is_kept, Appends};
ghost use Rattle.storage_service.specs.Noting.{some_for, last_for, noted_at};

use crate::starting::CHUNKS;
use log_chunks::LogStore;
use message_model::Appended;
use redo_record::Group;
use rm_base::{Epoch, Lsn, PAGES_PER_CHUNK, PageId, WantOfMemory};
use std::alloc::Global;
use std::marker::Model;

/// The log store, which knows of each chunk the last group with a record for it. Contracts see the log.
#[derive(Drop)]
pub(crate) struct NotedLog {
    store: LogStore,
    noted: Vec<u64>,
}

impl Model for NotedLog {
    ghost use Rattle.log_chunks.specs.Log.{Log};
    ghost use Rattle.storage_service.specs.Noting.{AreNoted};

    ghost Value = { Log };

    ghost view = { λ log. log.store };

    ghost invariant = { λ log. AreNoted log.store.groups log.noted.items };
}

/// The place of the page's chunk.
pub(crate) fn chunk_place(page: PageId) -> usize
    ensures place { result ≡ page / PAGES_PER_CHUNK }
    ensures bound { result < 128 }
{
    (page.number() / PAGES_PER_CHUNK) as usize
}

/// Notes the group for each chunk that it has a record for.
fn note_group(noted: &mut Vec<u64>, group: &Group)
    requires { length noted.old.items ≡ 128 }
    ensures all { length noted.new.items ≡ 128 }
    ensures each { (c : ℕ) → c < 128 → noted_at noted.new.items c
        ≡ (if some_for c group.now.records then group.now.lsn else noted_at noted.old.items c) }
{
    let lsn = group.lsn.number();
    for record in group.records.as_slice() {
        let place = chunk_place(record.page());
        noted[place] = lsn;
    }
}

/// Notes the groups of the log past that many.
fn note_past(noted: &mut Vec<u64>, store: &LogStore, before: u64)
    requires noted { length noted.old.items ≡ 128 }
    requires log { CountsFrom 0 store.now.groups }
    requires fits { before ≤ length store.now.groups }
    ensures all { length noted.new.items ≡ 128 }
    ensures each { (c : ℕ) → c < 128 → noted_at noted.new.items c
        ≡ last_for c (noted_at noted.old.items c) (drop before store.now.groups) }
{
    for place in before..store.last().number() {
        let Some(group) = store.group(Lsn::new(place + 1)) else {
            unreachable!()
        };
        note_group(noted, group);
    }
}

fn none_noted(alloc: Global) -> Result<Vec<u64>, WantOfMemory>
    ensures all { IfOk result (λ noted. length noted.items ≡ 128) }
    ensures each { IfOk result (λ noted. (c : ℕ) → noted_at noted.items c ≡ 0) }
{
    let mut noted = Vec::with_capacity(alloc, usize::from(CHUNKS))?;
    for count in 0..CHUNKS {
        noted.push(0)?;
    }
    Ok(noted)
}

impl NotedLog {
    pub fn new(alloc: Global, log: &[u8]) -> Result<NotedLog, WantOfMemory>
        requires { GoesOn 0 log.now }
        ensures epoch { IfOk result (λ store. store.epoch ≡ 1) }
        ensures groups { IfOk result (λ store. Spells log.now store.groups) }
    {
        let store = LogStore::new(alloc, log)?;
        let mut noted = none_noted(alloc)?;
        let _tail = store.tail();
        note_past(&mut noted, &store, 0);
        Ok(NotedLog { store, noted })
    }

    /// As the log store's.
    pub fn append(
        &mut self,
        alloc: Global,
        epoch: Epoch,
        offset: u64,
        bytes: &[u8],
    ) -> Result<Appended, WantOfMemory>
        requires { is_kept (answer_to self.old epoch offset (length bytes.now)) ≡ true
            → GoesOn (length self.old.groups) bytes.now }
        ensures answer { IfOk result (λ answer. answer ≡ answer_to self.old epoch offset (length bytes.now)) }
        ensures log { IfOk result (Appends self.old bytes.now self.new) }
        ensures err { OnErr result (self.new ≡ self.old) }
    {
        let before = self.store.last().number();
        let appended = self.store.append(alloc, epoch, offset, bytes)?;
        let _tail = self.store.tail();
        note_past(&mut self.noted, &self.store, before);
        Ok(appended)
    }

    pub fn fence(&mut self, epoch: Epoch)
        requires { self.old.epoch ≤ epoch }
        ensures { self.new ≡ record self.old { epoch = epoch } }
    {
        self.store.fence(epoch);
    }

    pub fn tail(&self) -> u64
        ensures value { result ≡ tail_of self.now }
        ensures log { AreLog self.now.groups }
    {
        self.store.tail()
    }

    pub fn last(&self) -> Lsn
        ensures { result ≡ length self.now.groups }
    {
        self.store.last()
    }

    pub fn group(&self, lsn: Lsn) -> Option<&Group>
        ensures { option_copied result ≡ find (λ g. g.lsn == lsn) self.now.groups }
    {
        self.store.group(lsn)
    }

    /// The LSN past which no group has a record for the chunk.
    pub fn noted(&self, c: u8) -> u64
        requires { c < 128 }
        ensures { result ≡ last_for c 0 self.now.groups }
    {
        self.noted[usize::from(c)]
    }
}
