ghost use Rattle.std.specs.Prelude.{◌≡◌, ◌+◌, ◌++◌, ◌∷◌, [], length, IfOk, OnOk, OnErr};
ghost use Rattle.redo_record.specs.Spelling.{Spells, IsEncodable};
ghost use Rattle.redo_record.specs.Effect.{CountsFrom};
ghost use Rattle.page_store.specs.Stored.{groups_of, next_lsn, all_kept, given_back};

use redo_record::{Group, encode};
use rm_base::{Items, Lsn, WantOfMemory};
use std::alloc::Global;
use std::marker::Model;

/// A log as bytes, the groups that can still be given back behind the kept ones. Contracts see the
/// groups.
#[derive(Drop)]
pub(crate) struct Journal {
    bytes: Vec<u8>,
    last: Lsn,
    kept_bytes: usize,
    kept_last: Lsn,
}

impl Model for Journal {
    ghost use Rattle.std.specs.Prelude.{◌≤◌, length, take, drop};
    ghost use Rattle.page_store.specs.Stored.{Stored};
    ghost use Rattle.page_store.specs.Journal.{groups_in, IsJournal};

    ghost Value = { Stored };

    ghost view = { λ j. record {
      kept = groups_in (take j.kept_bytes j.bytes.items);
      own = groups_in (drop j.kept_bytes j.bytes.items);
    } };

    ghost invariant = { λ j. IsJournal (take j.kept_bytes j.bytes.items) (drop j.kept_bytes j.bytes.items) j.kept_last j.last
        × (j.kept_bytes ≤ length j.bytes.items) };
}

impl Journal {
    pub fn new(alloc: Global) -> Journal
        ensures { result ≡ record { kept = []; own = [] } }
    {
        Journal {
            bytes: Vec::new(alloc),
            last: Lsn::new(0),
            kept_bytes: 0,
            kept_last: Lsn::new(0),
        }
    }

    /// The LSN of the group that comes next.
    pub fn next_lsn(&self) -> Result<Lsn, WantOfMemory>
        ensures next { IfOk result (λ lsn. lsn ≡ next_lsn self.now) }
        ensures counted { CountsFrom 0 (groups_of self.now) }
    {
        match self.last.number().checked_add(1) {
            Some(next) => Ok(Lsn::new(next)),
            // No memory holds a log of 2^64 groups.
            None => Err(WantOfMemory),
        }
    }

    /// Takes the next group.
    pub fn append(&mut self, alloc: Global, group: &Group) -> Result<(), WantOfMemory>
        requires encodable { IsEncodable group.now }
        requires next { group.now.lsn ≡ next_lsn self.old }
        ensures ok { OnOk result (self.new ≡ record self.old { own = self.old.own ++ group.now ∷ [] }) }
        ensures err { OnErr result (self.new ≡ self.old) }
    {
        let mut spelled = Items::new(alloc);
        encode(alloc, group, &mut spelled)?;
        self.bytes.extend_from_slice(spelled.as_slice())?;
        self.last = group.lsn;
        Ok(())
    }

    /// Keeps all groups.
    pub fn keep(&mut self)
        ensures { self.new ≡ all_kept self.old }
    {
        self.kept_bytes = self.bytes.len();
        self.kept_last = self.last;
    }

    /// Gives the groups back that are not kept.
    pub fn give_back(&mut self)
        ensures { self.new ≡ given_back self.old }
    {
        self.bytes.truncate(self.kept_bytes);
        self.last = self.kept_last;
    }

    /// The bytes of the kept groups.
    pub fn kept(&self) -> &[u8]
        ensures spelled { Spells result.now self.now.kept }
        ensures counted { CountsFrom 0 (groups_of self.now) }
    {
        &self.bytes.as_slice()[..self.kept_bytes]
    }
}
