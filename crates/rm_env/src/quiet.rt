ghost use Rattle.std.specs.Prelude.{ℕ, ◌≡◌, ◌≤◌, ◌<◌, ◌++◌, [], IfOk, OnOk, OnErr, IsOk, IsErrOf, Ok, Some, length, drop, min};
ghost use Rattle.std.specs.Io.KnownBytes.{ReadConsumes, WriteAppends};
ghost use Rattle.rm_env.specs.Faults.{Rose};

use crate::pieces::give;
use crate::sink::{Sink, SinkNo};
use crate::source::{Failed, Source};
use rm_base::{Bytes, Items};
use std::alloc::Global;
use std::marker::Model;

/// A source over bytes in memory, which never fails. Contracts see the bytes to come, and the most that
/// one call gives.
#[derive(Debug, Drop)]
pub struct QuietSource {
    bytes: Bytes,
    at: usize,
    piece: usize,
}

impl Model for QuietSource {
    ghost use Rattle.std.specs.Prelude.{◌≤◌, ◌<◌, length, drop};
    ghost use Rattle.rm_env.specs.Memory.{QuietLeft};

    ghost Value = { QuietLeft };

    ghost view = { λ s. record { left = drop s.at s.bytes; piece = s.piece } };

    ghost invariant = { λ s. (s.at ≤ length s.bytes) × (0 < s.piece) };
}

impl QuietSource {
    /// Gives the bytes in as few calls as the buffers allow.
    pub fn new(bytes: Bytes) -> QuietSource
        ensures left { result.left ≡ bytes }
        ensures piece { result.piece ≡ usize.MAX }
    {
        QuietSource {
            bytes,
            at: 0,
            piece: usize::MAX,
        }
    }

    /// The same source, which gives at most `piece` bytes a call.
    pub fn in_pieces(self, piece: usize) -> QuietSource
        requires { 0 < piece }
        ensures { result ≡ record self { piece = piece } }
    {
        let mut source = self;
        source.piece = piece;
        source
    }
}

impl Source for QuietSource {
    ghost left = { λ s. Some s.left };

    ghost faults = { λ _. 0 };

    fn read(&mut self, buf: &mut [u8]) -> Result<usize, Failed>
        ensures bound { IfOk result (λ n. n ≤ length buf.new) }
        ensures bytes { ReadConsumes (Some self.old.left) (Some self.new.left) result buf.new }
        ensures count { 0 ≤ 0 }
        ensures failed { OnErr result (Rose 0 0) }
        ensures quiet { IsOk result }
        ensures given { IfOk result (λ n. n ≡ min (min (length buf.old) (length self.old.left)) self.old.piece) }
        ensures ok { IfOk result (λ n. self.new ≡ record self.old { left = drop n self.old.left }) }
    {
        let n = give(self.bytes.as_slice(), self.at, self.piece, buf);
        self.at += n;
        Ok(n)
    }
}

/// A sink that keeps what it takes in memory, each piece whole, and never fails but for memory.
/// Contracts see the bytes taken.
#[derive(Debug, Drop)]
pub struct QuietSink {
    bytes: Bytes,
}

impl Model for QuietSink {
    ghost use Rattle.std.specs.Prelude.{List, ℕ};
    ghost use Rattle.std.specs.Coded.{coded_list, coded_ℕ};

    ghost Value = { List ℕ };

    ghost coded = { coded_list coded_ℕ };

    ghost view = { λ s. s.bytes };
}

impl QuietSink {
    /// Has taken nothing yet, and takes no memory now.
    pub fn new(alloc: Global) -> QuietSink
        ensures { result ≡ [] }
    {
        QuietSink {
            bytes: Items::new(alloc),
        }
    }

    /// The bytes taken so far.
    pub fn taken(&self) -> &[u8]
        ensures { result.now ≡ self.now }
    {
        self.bytes.as_slice()
    }
}

impl Sink for QuietSink {
    ghost taken = { λ s. Some s };

    ghost faults = { λ _. 0 };

    fn write(&mut self, bytes: &[u8]) -> Result<usize, SinkNo>
        ensures bound { IfOk result (λ n. n ≤ length bytes.now) }
        ensures bytes { WriteAppends (Some self.old) (Some self.new) result bytes.now }
        ensures count { 0 ≤ 0 }
        ensures failed { IsErrOf result SinkNo.Failed → Rose 0 0 }
        ensures stuck { result ≡ Ok 0 → 0 < length bytes.now → Rose 0 0 }
        ensures whole { IfOk result (λ n. n ≡ length bytes.now) }
        ensures ok { OnOk result (self.new ≡ self.old ++ bytes.now) }
        ensures err { OnErr result (self.new ≡ self.old) }
    {
        match self.bytes.append(bytes) {
            Ok(()) => Ok(bytes.len()),
            Err(_) => Err(SinkNo::WantOfMemory),
        }
    }
}
