ghost use Rattle.std.specs.Prelude.{◌≡◌, ◌≤◌, ◌<◌, ◌↔◌, ◌++◌, [], IfOk, OnOk, OnErr, IsErr, IsErrOf, Ok, Some, Contains, length, take, drop, min};
ghost use Rattle.std.specs.Io.KnownBytes.{ReadConsumes, WriteAppends};
ghost use Rattle.rm_env.specs.Faults.{Rose, next_count};

use crate::pieces::give;
use crate::sink::{Sink, SinkNo};
use crate::source::{Failed, Source};
use rm_base::{Bytes, Items};
use std::alloc::Global;
use std::marker::Model;

/// A source over bytes in memory, which fails at the calls that it is told. Contracts see the bytes to
/// come, the numbers of the calls that fail, the counts of calls and of faults, and the most bytes that
/// one call gives.
#[derive(Debug, Drop)]
pub struct MemSource {
    bytes: Bytes,
    at: usize,
    fails: Vec<u64>,
    calls: u64,
    faults: u64,
    piece: usize,
}

impl Model for MemSource {
    ghost use Rattle.std.specs.Prelude.{◌≤◌, ◌<◌, length, drop};
    ghost use Rattle.rm_env.specs.Memory.{MemoryLeft};

    ghost Value = { MemoryLeft };

    ghost view = { λ s. record {
      left = drop s.at s.bytes;
      fails = s.fails.items;
      calls = s.calls;
      faults = s.faults;
      piece = s.piece;
    } };

    ghost invariant = { λ s. (s.at ≤ length s.bytes) × (0 < s.piece) };
}

impl MemSource {
    /// Gives the bytes in as few calls as the buffers allow. The calls whose numbers, from 1, stand in
    /// `fails` fail.
    pub fn new(bytes: Bytes, fails: Vec<u64>) -> MemSource
        ensures left { result.left ≡ bytes }
        ensures fails { result.fails ≡ fails.items }
        ensures calls { result.calls ≡ 0 }
        ensures faults { result.faults ≡ 0 }
        ensures piece { result.piece ≡ usize.MAX }
    {
        MemSource {
            bytes,
            at: 0,
            fails,
            calls: 0,
            faults: 0,
            piece: usize::MAX,
        }
    }

    /// The same source, which gives at most `piece` bytes a call.
    pub fn in_pieces(self, piece: usize) -> MemSource
        requires { 0 < piece }
        ensures { result ≡ record self { piece = piece } }
    {
        let mut source = self;
        source.piece = piece;
        source
    }

    /// How many calls failed.
    pub fn faults(&self) -> u64
        ensures { result ≡ self.now.faults }
    {
        self.faults
    }
}

impl Source for MemSource {
    ghost left = { λ s. Some s.left };

    ghost faults = { λ s. s.faults };

    fn read(&mut self, buf: &mut [u8]) -> Result<usize, Failed>
        ensures bound { IfOk result (λ n. n ≤ length buf.new) }
        ensures bytes { ReadConsumes (Some self.old.left) (Some self.new.left) result buf.new }
        ensures count { self.old.faults ≤ self.new.faults }
        ensures failed { OnErr result (Rose self.old.faults self.new.faults) }
        ensures fails { IsErr result ↔ Contains self.old.fails (next_count self.old.calls) }
        ensures given { IfOk result (λ n. n ≡ min (min (length buf.old) (length self.old.left)) self.old.piece) }
        ensures ok { IfOk result (λ n. self.new ≡ record self.old {
          left = drop n self.old.left;
          calls = next_count self.old.calls;
        }) }
        ensures err { OnErr result (self.new ≡ record self.old {
          calls = next_count self.old.calls;
          faults = next_count self.old.faults;
        }) }
    {
        self.calls = self.calls.saturating_add(1);
        if self.fails.contains(&self.calls) {
            self.faults = self.faults.saturating_add(1);
            return Err(Failed);
        }
        let n = give(self.bytes.as_slice(), self.at, self.piece, buf);
        self.at += n;
        Ok(n)
    }
}

/// A sink that keeps what it takes in memory, and fails at the calls that it is told. Contracts see the
/// bytes taken, the numbers of the calls that fail, the counts of calls and of faults, and the most
/// bytes that one call takes.
#[derive(Debug, Drop)]
pub struct MemSink {
    bytes: Bytes,
    fails: Vec<u64>,
    calls: u64,
    faults: u64,
    piece: usize,
}

impl Model for MemSink {
    ghost use Rattle.std.specs.Prelude.{◌<◌};
    ghost use Rattle.rm_env.specs.Memory.{MemoryTaken};

    ghost Value = { MemoryTaken };

    ghost view = { λ s. record {
      taken = s.bytes;
      fails = s.fails.items;
      calls = s.calls;
      faults = s.faults;
      piece = s.piece;
    } };

    ghost invariant = { λ s. 0 < s.piece };
}

impl MemSink {
    /// Takes each piece whole, and has taken nothing yet. It takes no memory now. The calls whose
    /// numbers, from 1, stand in `fails` fail.
    pub fn new(alloc: Global, fails: Vec<u64>) -> MemSink
        ensures taken { result.taken ≡ [] }
        ensures fails { result.fails ≡ fails.items }
        ensures calls { result.calls ≡ 0 }
        ensures faults { result.faults ≡ 0 }
        ensures piece { result.piece ≡ usize.MAX }
    {
        MemSink {
            bytes: Items::new(alloc),
            fails,
            calls: 0,
            faults: 0,
            piece: usize::MAX,
        }
    }

    /// The same sink, which takes at most `piece` bytes a call.
    pub fn in_pieces(self, piece: usize) -> MemSink
        requires { 0 < piece }
        ensures { result ≡ record self { piece = piece } }
    {
        let mut sink = self;
        sink.piece = piece;
        sink
    }

    /// The bytes taken so far.
    pub fn taken(&self) -> &[u8]
        ensures { result.now ≡ self.now.taken }
    {
        self.bytes.as_slice()
    }

    /// How many calls failed.
    pub fn faults(&self) -> u64
        ensures { result ≡ self.now.faults }
    {
        self.faults
    }
}

impl Sink for MemSink {
    ghost taken = { λ s. Some s.taken };

    ghost faults = { λ s. s.faults };

    fn write(&mut self, bytes: &[u8]) -> Result<usize, SinkNo>
        ensures bound { IfOk result (λ n. n ≤ length bytes.now) }
        ensures bytes { WriteAppends (Some self.old.taken) (Some self.new.taken) result bytes.now }
        ensures count { self.old.faults ≤ self.new.faults }
        ensures failed { IsErrOf result SinkNo.Failed → Rose self.old.faults self.new.faults }
        ensures stuck { result ≡ Ok 0 → 0 < length bytes.now → Rose self.old.faults self.new.faults }
        ensures fails { IsErrOf result SinkNo.Failed ↔ Contains self.old.fails (next_count self.old.calls) }
        ensures whole { IfOk result (λ n. n ≡ min (length bytes.now) self.old.piece) }
        ensures ok { IfOk result (λ n. self.new ≡ record self.old {
          taken = self.old.taken ++ take n bytes.now;
          calls = next_count self.old.calls;
        }) }
        ensures err { IsErrOf result SinkNo.Failed → self.new ≡ record self.old {
          calls = next_count self.old.calls;
          faults = next_count self.old.faults;
        } }
        ensures want { IsErrOf result SinkNo.WantOfMemory → self.new ≡ record self.old {
          calls = next_count self.old.calls;
        } }
    {
        self.calls = self.calls.saturating_add(1);
        if self.fails.contains(&self.calls) {
            self.faults = self.faults.saturating_add(1);
            return Err(SinkNo::Failed);
        }
        let n = bytes.len().min(self.piece);
        match self.bytes.append(&bytes[..n]) {
            Ok(()) => Ok(n),
            Err(_) => Err(SinkNo::WantOfMemory),
        }
    }
}
