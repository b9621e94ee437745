ghost use Rattle.std.specs.Prelude.{ℕ, ◌≡◌, ◌≢◌, ◌≤◌, ◌<◌, ◌+◌, ◌-◌, ◌++◌, [], ◌∷◌, Ok, Err, IfSome, IfNone, IfOk, OnErr, length, take, drop, slice_index};
ghost use Rattle.std.specs.Io.KnownBytes.{Consumes, Keeps, IsAtEnd};
ghost use Rattle.rm_env.specs.Faults.{Rose};
ghost use Rattle.rmem_db.specs.Reading.{HasNoLf, IsLineEnd, ReadsMore, ReadsEnd, ReadsPast, ReadsSome, TakesMore};

use rm_base::{MAX_INPUT_BYTES, WantOfMemory};
use rm_env::{Failed, Source};
use std::alloc::{AllocError, Global};
use std::marker::Model;

/// The most bytes that one read asks for.
pub const READ_SIZE: usize = 65_536;

/// The input as far as it was taken. Contracts see the bytes that were not passed yet, and how many
/// bytes were taken.
#[derive(Drop)]
pub(crate) struct Input {
    bytes: Vec<u8>,
    at: usize,
    clear: usize,
    taken: usize,
    buffer: Vec<u8>,
}

impl Model for Input {
    ghost use Rattle.std.specs.Prelude.{ℕ, ◌≡◌, ◌≢◌, ◌≤◌, ◌<◌, drop, slice_index, vec_len};
    ghost use Rattle.rmem_db.specs.Reading.{Held};

    ghost Value = { Held };

    ghost view = { λ s. record { bytes = drop s.at s.bytes.items; taken = s.taken } };

    ghost invariant = { λ s. record {
      started : s.at ≤ s.clear;
      inside : s.clear ≤ vec_len s.bytes;
      searched : (k : ℕ) → s.at ≤ k → k < s.clear → slice_index s.bytes.items k ≢ 10;
      few : s.taken ≤ 4194304;
      room : vec_len s.buffer ≡ 65536;
    } };
}

/// What a read led to.
#[derive(Clone, Copy, Debug, PartialEq, Eq)]
pub(crate) enum Filled {
    /// More bytes are held.
    More,
    /// The input is at its end.
    End,
    /// The input is longer than a run answers.
    TooLong,
}

/// Why no read led to anything.
#[derive(Clone, Copy, Debug, PartialEq, Eq)]
pub(crate) enum ReadNo {
    Failed,
    WantOfMemory,
}

impl From<AllocError> for ReadNo {
    ghost use Rattle.std.specs.Prelude.{◌≡◌};
    ghost use Rattle.rmem_db.specs.declared.reading.ReadNo.TheVariants.{WantOfMemory};

    ghost from_gives = { λ _ no. no ≡ WantOfMemory };

    fn from(_e: AllocError) -> ReadNo {
        ReadNo::WantOfMemory
    }
}

impl From<Failed> for ReadNo {
    ghost use Rattle.std.specs.Prelude.{◌≡◌};
    ghost use Rattle.rmem_db.specs.declared.reading.ReadNo.TheVariants as no;

    ghost from_gives = { λ _ e. e ≡ no.Failed };

    fn from(_e: Failed) -> ReadNo {
        ReadNo::Failed
    }
}

/// Where the first LF stands.
fn first_lf(bytes: &[u8]) -> Option<usize>
    ensures found { IfSome result (IsLineEnd bytes.now) }
    ensures none { IfNone result (HasNoLf bytes.now) }
{
    bytes.iter().position(|b| *b == b'\n')
}

/// Where the first LF stands, where none stands among the first `clear` bytes.
fn first_lf_behind(bytes: &[u8], clear: usize) -> Option<usize>
    requires inside { clear ≤ length bytes.now }
    requires clear { (k : ℕ) → k < clear → slice_index bytes.now k ≢ 10 }
    ensures found { IfSome result (IsLineEnd bytes.now) }
    ensures none { IfNone result (HasNoLf bytes.now) }
{
    match first_lf(&bytes[clear..]) {
        Some(n) => Some(clear + n),
        None => None,
    }
}

/// Reads at most `want` bytes, and puts them behind `bytes`.
fn take_more<S: Source>(
    source: &mut S,
    buffer: &mut [u8],
    bytes: &mut Vec<u8>,
    want: usize,
) -> Result<usize, ReadNo>
    requires some { 0 < want }
    requires room { want ≤ length buffer.old }
    ensures bound { IfOk result (λ n. n ≤ want) }
    ensures ok { IfOk result (TakesMore (S.left source.old) (S.left source.new) bytes.old.items bytes.new.items) }
    ensures failed { result ≡ Err ReadNo.Failed → Keeps (S.left source.old) (S.left source.new) }
    ensures cause { result ≡ Err ReadNo.Failed → Rose (S.faults source.old) (S.faults source.new) }
    ensures memory { result ≡ Err ReadNo.WantOfMemory
        → ReadsSome (S.left source.old) (S.left source.new) want }
    ensures err { OnErr result (bytes.new.items ≡ bytes.old.items) }
    ensures count { S.faults source.old ≤ S.faults source.new }
{
    bytes.reserve(want)?;
    let n = source.read(&mut buffer[..want])?;
    bytes.extend_from_slice(&buffer[..n])?;
    Ok(n)
}

/// Asks for one byte past the limit.
fn probe<S: Source>(source: &mut S) -> Result<Filled, ReadNo>
    ensures more { result ≡ Ok Filled.More → ⊥ }
    ensures end { result ≡ Ok Filled.End
        → Consumes (S.left source.old) (S.left source.new) [] × IsAtEnd (S.left source.new) }
    ensures past { result ≡ Ok Filled.TooLong
        → (byte : ℕ) × Consumes (S.left source.old) (S.left source.new) (byte ∷ []) }
    ensures failed { result ≡ Err ReadNo.Failed → Keeps (S.left source.old) (S.left source.new) }
    ensures cause { result ≡ Err ReadNo.Failed → Rose (S.faults source.old) (S.faults source.new) }
    ensures memory { result ≡ Err ReadNo.WantOfMemory → ⊥ }
    ensures count { S.faults source.old ≤ S.faults source.new }
{
    let mut byte = [0u8; 1];
    match source.read(&mut byte) {
        Ok(0) => Ok(Filled::End),
        Ok(_) => Ok(Filled::TooLong),
        Err(_) => Err(ReadNo::Failed),
    }
}

impl Input {
    /// Nothing was taken yet.
    pub fn new(alloc: Global) -> Result<Input, WantOfMemory>
        ensures { IfOk result (λ input. input ≡ record { bytes = []; taken = 0 }) }
    {
        Ok(Input {
            bytes: Vec::new(alloc),
            at: 0,
            clear: 0,
            taken: 0,
            buffer: vec![in alloc; 0; READ_SIZE]?,
        })
    }

    /// How many bytes the next whole line has, where one is held.
    pub fn line_end(&mut self) -> Option<usize>
        ensures found { IfSome result (IsLineEnd self.old.bytes) }
        ensures none { IfNone result (HasNoLf self.old.bytes) }
        ensures same { self.new ≡ self.old }
    {
        match first_lf_behind(&self.bytes[self.at..], self.clear - self.at) {
            Some(n) => {
                self.clear = self.at + n;
                Some(n)
            }
            None => {
                self.clear = self.bytes.len();
                None
            }
        }
    }

    /// The first n bytes that are held.
    pub fn front(&self, n: usize) -> &[u8]
        requires { n ≤ length self.now.bytes }
        ensures { result.now ≡ take n self.now.bytes }
    {
        &self.bytes[self.at..self.at + n]
    }

    /// All bytes that are held.
    pub fn rest(&self) -> &[u8]
        ensures { result.now ≡ self.now.bytes }
    {
        &self.bytes[self.at..]
    }

    /// Passes the first n bytes that are held.
    pub fn pass(&mut self, n: usize)
        requires { n ≤ length self.old.bytes }
        ensures { self.new ≡ record self.old { bytes = drop n self.old.bytes } }
    {
        self.at += n;
        self.clear = self.clear.max(self.at);
        if self.at == self.bytes.len() {
            self.bytes.clear();
            self.at = 0;
            self.clear = 0;
        }
    }

    /// Asks the source once for more bytes. After an `Err` the same bytes are held as before.
    pub fn fill<S: Source>(&mut self, source: &mut S) -> Result<Filled, ReadNo>
        ensures more { result ≡ Ok Filled.More
            → ReadsMore (S.left source.old) (S.left source.new) self.old self.new }
        ensures end { result ≡ Ok Filled.End
            → ReadsEnd (S.left source.old) (S.left source.new) self.old self.new }
        ensures past { result ≡ Ok Filled.TooLong
            → ReadsPast (S.left source.old) (S.left source.new) self.old self.new }
        ensures limit { result ≡ Ok Filled.TooLong → self.old.taken ≡ MAX_INPUT_BYTES }
        ensures few { self.new.taken ≤ MAX_INPUT_BYTES }
        ensures failed { result ≡ Err ReadNo.Failed → Keeps (S.left source.old) (S.left source.new) }
        ensures cause { result ≡ Err ReadNo.Failed → Rose (S.faults source.old) (S.faults source.new) }
        ensures memory { result ≡ Err ReadNo.WantOfMemory
            → ReadsSome (S.left source.old) (S.left source.new) (MAX_INPUT_BYTES - self.old.taken) }
        ensures err { OnErr result (self.new ≡ self.old) }
        ensures count { S.faults source.old ≤ S.faults source.new }
    {
        if self.taken == MAX_INPUT_BYTES {
            return probe(source);
        }
        let want = READ_SIZE.min(MAX_INPUT_BYTES - self.taken);
        let n = take_more(source, self.buffer.as_mut_slice(), &mut self.bytes, want)?;
        self.taken += n;
        Ok(if n == 0 { Filled::End } else { Filled::More })
    }
}
