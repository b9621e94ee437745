//! The words of a line.
ghost use Rattle.std.specs.Prelude.{◌≡◌, IfOk};
ghost use Rattle.script_text.specs.Words as spec;

use crate::cuts::{Cut, cut_at};
use rm_base::{Items, WantOfMemory};
use std::alloc::Global;
use std::marker::Model;

/// Bytes of a line. Contracts see the bytes.
#[derive(Debug, Drop)]
pub struct Part<'a> {
    bytes: &'a [u8],
}

impl<'a> Model for Part<'a> {
    ghost use Rattle.std.specs.Prelude.{List, ℕ};

    ghost Value = { List ℕ };

    ghost view = { λ part. part.bytes.now };
}

impl<'a> Part<'a> {
    pub fn new(bytes: &'a [u8]) -> Part<'a>
        ensures { result ≡ bytes.now }
    {
        Part { bytes }
    }

    pub fn bytes(&self) -> &'a [u8]
        ensures { result.now ≡ self.now }
    {
        self.bytes
    }

    /// Whether the part is this text.
    pub fn is(&self, text: &[u8]) -> bool
        ensures { result ≡ spec.is self.now text.now }
    {
        self.bytes == text
    }
}

/// What stands before, between and behind the spaces of a line.
pub fn words<'a>(alloc: Global, line: &'a [u8]) -> Result<Items<Part<'a>>, WantOfMemory>
    ensures { IfOk result (λ ws. ws ≡ spec.words line.now) }
{
    let mut words = Items::new(alloc);
    let mut rest = line;
    'words: loop {
        match cut_at(rest, b' ') {
            Some(Cut { before, behind }) => {
                words.push(Part::new(before))?;
                rest = behind;
            }
            None => {
                words.push(Part::new(rest))?;
                return Ok(words);
            }
        }
    }
}
