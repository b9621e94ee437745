ghost use Rattle.std.specs.Prelude.{◌≡◌, ◌≤◌, ◌*◌, ◌==◌, ℕ, true, false, List, ◌++◌, [], length, take, drop, find, IsOk, IfOk, OnOk, OnErr, MatchOption};
ghost use Rattle.std.specs.Option.{option_copied};
ghost use Rattle.redo_record.specs.declared.redo.Group.{Group};
ghost use Rattle.redo_record.specs.Spelling.{log_bytes, Spells};
ghost use Rattle.log_chunks.specs.Log.{GoesOn, AreLog, tail_of, answer_to, is_kept, longer, Appends};
ghost use Rattle.log_chunks.specs.History.{append, fence, after};

use crate::chunks::Chunks;
use crate::places::item_at;
use crate::reading::next_groups;
use message_model::Appended;
use redo_record::Group;
use rm_base::{Epoch, LOG_CHUNK_BYTES, Lsn, WantOfMemory};
use std::alloc::Global;
use std::marker::Model;

/// The store that keeps the log. Contracts see its epoch and its groups.
#[derive(Drop)]
pub struct LogStore {
    epoch: Epoch,
    groups: Vec<Group>,
    chunks: Chunks,
    tail: u64,
}

impl Model for LogStore {
    ghost use Rattle.log_chunks.specs.Log.{Log, IsStored};

    ghost Value = { Log };

    ghost view = { λ s. record { epoch = s.epoch; groups = s.groups.items } };

    ghost invariant = { λ s. IsStored s.groups.items s.chunks s.tail };
}

impl LogStore {
    /// A store of epoch 1 with a log.
    pub fn new(alloc: Global, log: &[u8]) -> Result<LogStore, WantOfMemory>
        requires { GoesOn 0 log.now }
        ensures epoch { IfOk result (λ store. store.epoch ≡ 1) }
        ensures groups { IfOk result (λ store. Spells log.now store.groups) }
    {
        let mut store = LogStore {
            epoch: Epoch::new(1),
            groups: Vec::new(alloc),
            chunks: Chunks::new(alloc),
            tail: 0,
        };
        store.keep(alloc, log)?;
        Ok(store)
    }

    /// Keeps the bytes whole, or refuses them: an older epoch first, then an offset other than the tail.
    pub fn append(
        &mut self,
        alloc: Global,
        epoch: Epoch,
        offset: u64,
        bytes: &[u8],
    ) -> Result<Appended, WantOfMemory>
        requires { is_kept (answer_to self.old epoch offset (length bytes.now)) ≡ true
            → GoesOn (length self.old.groups) bytes.now }
        ensures answer { IfOk result (λ answer. answer ≡ answer_to self.old epoch offset (length bytes.now)) }
        ensures log { IfOk result (Appends self.old bytes.now self.new) }
        ensures err { OnErr result (self.new ≡ self.old) }

        // A refusal takes no memory.
        ensures free { is_kept (answer_to self.old epoch offset (length bytes.now)) ≡ false → IsOk result }

        // It is the append of the laws over any list of calls.
        ensures step { OnOk result ((groups : List Group) → Spells bytes.now groups
            → self.new ≡ after self.old (append epoch offset groups)) }
    {
        if epoch < self.epoch {
            return Ok(Appended::Fenced { epoch: self.epoch });
        }
        if offset != self.tail {
            return Ok(Appended::WrongOffset { tail: self.tail });
        }
        self.keep(alloc, bytes)?;
        Ok(Appended::Kept { tail: self.tail })
    }

    /// Refuses appends of older epochs from now on.
    pub fn fence(&mut self, e: Epoch)
        requires { self.old.epoch ≤ e }
        ensures { self.new ≡ after self.old (fence e) }
    {
        self.epoch = e;
    }

    /// The least epoch whose appends are kept.
    pub fn epoch(&self) -> Epoch
        ensures { result ≡ self.now.epoch }
    {
        self.epoch
    }

    /// The length of the log in bytes.
    pub fn tail(&self) -> u64
        ensures value { result ≡ tail_of self.now }
        ensures log { AreLog self.now.groups }
    {
        self.tail
    }

    /// The LSN of the last group, or 0.
    pub fn last(&self) -> Lsn
        ensures { result ≡ length self.now.groups }
    {
        Lsn::new(self.groups.len() as u64)
    }

    /// The group with that LSN. None exactly where there is none.
    pub fn group(&self, lsn: Lsn) -> Option<&Group>
        ensures { option_copied result ≡ find (λ g. g.lsn == lsn) self.now.groups }
    {
        let groups = self.groups.as_slice();
        match lsn.number().checked_sub(1) {
            Some(place) => item_at(groups, place as usize),
            None => None,
        }
    }

    /// The bytes of the log from `i * LOG_CHUNK_BYTES` on, as many as a chunk holds. None where there are none.
    pub fn chunk(&self, i: usize) -> Option<&[u8]>
        ensures { MatchOption result (tail_of self.now ≤ LOG_CHUNK_BYTES * i)
            (λ chunk. chunk.now ≡ take LOG_CHUNK_BYTES (drop (LOG_CHUNK_BYTES * i) (log_bytes self.now.groups))) }
    {
        self.chunks.get(i)
    }

    /// Keeps the bytes at the end of the log.
    fn keep(&mut self, alloc: Global, bytes: &[u8]) -> Result<(), WantOfMemory>
        requires { GoesOn (length self.old.groups) bytes.now }
        ensures ok { OnOk result ((groups : List Group) → Spells bytes.now groups → self.new ≡ longer self.old groups) }
        ensures err { OnErr result (self.new ≡ self.old) }
    {
        // No memory holds a log of 2^64 bytes.
        let Some(tail) = self.tail.checked_add(bytes.len() as u64) else {
            return Err(WantOfMemory);
        };
        let Some(more) = next_groups(alloc, bytes, self.last())? else {
            unreachable!()
        };
        let before = self.groups.len();
        self.groups.append(&mut more.into_vec())?;
        if self.chunks.append(alloc, bytes).is_err() {
            self.groups.truncate(before);
            return Err(WantOfMemory);
        }
        self.tail = tail;
        Ok(())
    }
}
