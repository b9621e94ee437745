ghost use Rattle.std.specs.Prelude.{◌≡◌, ◌≤◌, ◌<◌, IfOk, OnOk, OnErr, IsErrOf, Ok, None, length};
ghost use Rattle.std.specs.Io.KnownBytes.{ReadConsumes, WriteAppends};
ghost use Rattle.rm_env.specs.Faults.{Rose, next_count};

use crate::sink::{Sink, SinkNo};
use crate::source::{Failed, Source};
use std::io::{Read, Write};
use std::marker::Model;

/// One of std's readers as a source. It does not tell its bytes, and counts the reads that answered an
/// `Err`. Contracts see that count.
#[derive(Drop)]
pub struct StdSource<R> {
    inner: R,
    faults: u64,
}

impl<R> Model for StdSource<R> {
    ghost use Rattle.std.specs.Prelude.{ℕ};

    ghost Value = { ℕ };

    ghost view = { λ s. s.faults };
}

impl<R: Read> StdSource<R> {
    pub fn new(inner: R) -> StdSource<R>
        ensures { result ≡ 0 }
    {
        StdSource { inner, faults: 0 }
    }

    /// How many calls failed.
    pub fn faults(&self) -> u64
        ensures { result ≡ self.now }
    {
        self.faults
    }
}

impl<R: Read> Source for StdSource<R> {
    ghost left = { λ _. None };

    ghost faults = { λ s. s };

    fn read(&mut self, buf: &mut [u8]) -> Result<usize, Failed>
        ensures bound { IfOk result (λ n. n ≤ length buf.new) }
        ensures bytes { ReadConsumes None None result buf.new }
        ensures count { self.old ≤ self.new }
        ensures failed { OnErr result (Rose self.old self.new) }
        ensures ok { OnOk result (self.new ≡ self.old) }
        ensures err { OnErr result (self.new ≡ next_count self.old) }
    {
        match self.inner.read(buf) {
            Ok(n) => Ok(n),
            Err(_) => {
                self.faults = self.faults.saturating_add(1);
                Err(Failed)
            }
        }
    }
}

/// One of std's writers as a sink. It does not tell its bytes, and counts the writes that answered an
/// `Err`, or took nothing of a piece that is not empty. Contracts see that count. It does not flush, so
/// give it a writer without a buffer where each piece is to be seen at once.
#[derive(Drop)]
pub struct StdSink<W> {
    inner: W,
    faults: u64,
}

impl<W> Model for StdSink<W> {
    ghost use Rattle.std.specs.Prelude.{ℕ};

    ghost Value = { ℕ };

    ghost view = { λ s. s.faults };
}

impl<W: Write> StdSink<W> {
    pub fn new(inner: W) -> StdSink<W>
        ensures { result ≡ 0 }
    {
        StdSink { inner, faults: 0 }
    }

    /// How many calls failed or took nothing of a piece.
    pub fn faults(&self) -> u64
        ensures { result ≡ self.now }
    {
        self.faults
    }
}

impl<W: Write> Sink for StdSink<W> {
    ghost taken = { λ _. None };

    ghost faults = { λ s. s };

    fn write(&mut self, bytes: &[u8]) -> Result<usize, SinkNo>
        ensures bound { IfOk result (λ n. n ≤ length bytes.now) }
        ensures bytes { WriteAppends None None result bytes.now }
        ensures count { self.old ≤ self.new }
        ensures failed { IsErrOf result SinkNo.Failed → Rose self.old self.new }
        ensures stuck { result ≡ Ok 0 → 0 < length bytes.now → Rose self.old self.new }
        ensures ok { IfOk result (λ n. 0 < n → self.new ≡ self.old) }
        ensures err { OnErr result (self.new ≡ next_count self.old) }
        ensures memory { IsErrOf result SinkNo.WantOfMemory → ⊥ }
    {
        match self.inner.write(bytes) {
            Ok(n) => {
                if n == 0 && !bytes.is_empty() {
                    self.faults = self.faults.saturating_add(1);
                }
                Ok(n)
            }
            Err(_) => {
                self.faults = self.faults.saturating_add(1);
                Err(SinkNo::Failed)
            }
        }
    }
}
