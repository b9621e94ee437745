ghost use Rattle.std.specs.Prelude.{◌≡◌, ◌≤◌, ◌<◌, ◌+◌, ◌*◌, ◌++◌, [], List, length, take, drop, IfOk, OnOk, OnErr, MatchOption};
ghost use Rattle.std.specs.List.{concat};
ghost use Rattle.log_chunks.specs.Chunked.{AreFull};

use crate::places::item_at;
use rm_base::{Bytes, Items, LOG_CHUNK_BYTES, WantOfMemory};
use std::alloc::Global;
use std::marker::Model;

/// Bytes in chunks of `LOG_CHUNK_BYTES`, the last of which is open. Contracts see the bytes.
#[derive(Drop)]
pub(crate) struct Chunks {
    full: Vec<Bytes>,
    open: Bytes,
}

impl Model for Chunks {
    ghost use Rattle.std.specs.Prelude.{ℕ, List, ◌++◌};
    ghost use Rattle.std.specs.List.{concat};
    ghost use Rattle.log_chunks.specs.Chunked.{AreChunks};

    ghost Value = { List ℕ };

    ghost view = { λ c. concat c.full.items ++ c.«open» };

    ghost invariant = { λ c. AreChunks c.full.items c.«open» };
}

fn copied(alloc: Global, bytes: &[u8]) -> Result<Bytes, WantOfMemory>
    ensures { IfOk result (λ copy. copy ≡ bytes.now) }
{
    Ok(Items::from_vec(Vec::from_slice(alloc, bytes)?))
}

/// The bytes of both, in one list.
fn joined(alloc: Global, first: &[u8], second: &[u8]) -> Result<Bytes, WantOfMemory>
    ensures { IfOk result (λ both. both ≡ first.now ++ second.now) }
{
    let mut both = copied(alloc, first)?;
    both.append(second)?;
    Ok(both)
}

/// Cuts the bytes into full chunks, which join those in `full`, and the rest.
fn cut(alloc: Global, bytes: &[u8], full: &mut Vec<Bytes>) -> Result<Bytes, WantOfMemory>
    requires { AreFull full.old.items }
    ensures same { IfOk result (λ rest. concat full.new.items ++ rest ≡ concat full.old.items ++ bytes.now) }
    ensures each { AreFull full.new.items }
    ensures room { IfOk result (λ rest. length rest < LOG_CHUNK_BYTES) }
{
    let mut rest = bytes;
    while rest.len() >= LOG_CHUNK_BYTES {
        let (chunk, more) = rest.split_at(LOG_CHUNK_BYTES);
        full.push(copied(alloc, chunk)?)?;
        rest = more;
    }
    copied(alloc, rest)
}

impl Chunks {
    pub fn new(alloc: Global) -> Chunks
        ensures { result ≡ [] }
    {
        Chunks {
            full: Vec::new(alloc),
            open: Items::new(alloc),
        }
    }

    /// Where a chunk becomes full its bytes are copied once, so that nothing is to be taken back when
    /// memory runs out.
    pub fn append(&mut self, alloc: Global, bytes: &[u8]) -> Result<(), WantOfMemory>
        ensures ok { OnOk result (self.new ≡ self.old ++ bytes.now) }
        ensures err { OnErr result (self.new ≡ self.old) }
    {
        let room = LOG_CHUNK_BYTES - self.open.len();
        if bytes.len() < room {
            return self.open.append(bytes);
        }
        let (first, rest) = bytes.split_at(room);
        let mut full = Vec::new(alloc);
        full.push(joined(alloc, self.open.as_slice(), first)?)?;
        let open = cut(alloc, rest, &mut full)?;
        self.full.append(&mut full)?;
        self.open = open;
        Ok(())
    }

    /// The bytes from `i * LOG_CHUNK_BYTES` on, as many as a chunk holds. None where there are none.
    pub fn get(&self, i: usize) -> Option<&[u8]>
        ensures { MatchOption result (length self.now ≤ LOG_CHUNK_BYTES * i)
            (λ chunk. chunk.now ≡ take LOG_CHUNK_BYTES (drop (LOG_CHUNK_BYTES * i) self.now)) }
    {
        if let Some(chunk) = item_at(self.full.as_slice(), i) {
            return Some(chunk.as_slice());
        }
        if i == self.full.len() && !self.open.is_empty() {
            return Some(self.open.as_slice());
        }
        None
    }
}
