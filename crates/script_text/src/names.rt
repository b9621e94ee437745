//! Session names as a script writes them.
ghost use Rattle.std.specs.Prelude.{◌≡◌, ◌<◌, ◌≤◌, length, IfOk};
ghost use Rattle.std.specs.List.{list_all};
ghost use Rattle.script_text.specs.Names as spec;

use crate::numbers::is_digit;
use rm_base::{Name, Text, WantOfMemory};
use std::alloc::Global;
use std::marker::Model;

/// The most bytes of a name behind its first.
const MAX_OTHERS: usize = 7;

#[tactic(auto, unfolding(crate::specs::Names::is_lower))]
fn is_lower(byte: u8) -> bool
    ensures { result ≡ spec.is_lower byte }
{
    byte >= b'a' && byte <= b'z'
}

#[tactic(auto, unfolding(crate::specs::Names::is_name_byte))]
fn is_name_byte(byte: u8) -> bool
    ensures { result ≡ spec.is_name_byte byte }
{
    is_lower(byte) || is_digit(byte)
}

fn all_name_bytes(bytes: &[u8]) -> bool
    ensures { result ≡ list_all spec.is_name_byte bytes.now }
{
    bytes.iter().all(|b| is_name_byte(*b))
}

/// A lower-case letter and up to 7 lower-case letters or digits.
#[tactic(auto, unfolding(crate::specs::Names::is_name))]
fn is_name(word: &[u8]) -> bool
    ensures { result ≡ spec.is_name word.now }
{
    match word {
        [first, others @ ..] => {
            if !is_lower(*first) || others.len() > MAX_OTHERS {
                return false;
            }
            all_name_bytes(others)
        }
        [] => false,
    }
}

/// A session's name in a line. Contracts see its bytes.
#[derive(Debug, Drop)]
pub struct SessionName<'a> {
    bytes: &'a [u8],
}

impl<'a> Model for SessionName<'a> {
    ghost use Rattle.std.specs.Prelude.{List, ℕ, ◌<◌, ◌≤◌, length};

    ghost Value = { List ℕ };

    ghost view = { λ name. name.bytes.now };

    ghost invariant = { λ name. (0 < length name.bytes.now) × (length name.bytes.now ≤ 8) };
}

impl<'a> SessionName<'a> {
    /// None where the word is no session's name.
    #[tactic(auto, using(crate::proofs::NameLaws::name_bounds), unfolding(crate::specs::Names::name_of))]
    pub fn new(word: &'a [u8]) -> Option<SessionName<'a>>
        ensures { result ≡ spec.name_of word.now }
    {
        if is_name(word) {
            Some(SessionName { bytes: word })
        } else {
            None
        }
    }

    pub fn bytes(&self) -> &'a [u8]
        ensures { result.now ≡ self.now }
    {
        self.bytes
    }

    pub fn to_name(&self, alloc: Global) -> Result<Name, WantOfMemory>
        ensures { IfOk result (λ name. name ≡ self.now) }
    {
        let mut text = Text::new(alloc);
        text.append(self.bytes)?;
        Ok(Name::new(text).unwrap())
    }
}
