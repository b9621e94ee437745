ghost use Rattle.std.specs.Prelude.{◌≡◌, ◌≤◌, length};
ghost use Rattle.std.specs.List.{prefix_len};
ghost use Rattle.sql_words.specs.Bytes as spec;

pub const QUOTE: u8 = b'\'';

/// The space, tab and CR.
#[tactic(auto, unfolding(crate::specs::Bytes::is_space))]
pub fn is_space(byte: u8) -> bool
    ensures { result ≡ spec.is_space byte }
{
    byte == b' ' || byte == b'\t' || byte == b'\r'
}

/// An ASCII letter or `_`, with which words begin.
#[tactic(auto, unfolding(crate::specs::Bytes::is_letter))]
pub fn is_letter(byte: u8) -> bool
    ensures { result ≡ spec.is_letter byte }
{
    (byte >= b'A' && byte <= b'Z') || (byte >= b'a' && byte <= b'z') || byte == b'_'
}

#[tactic(auto, unfolding(crate::specs::Bytes::is_digit))]
pub fn is_digit(byte: u8) -> bool
    ensures { result ≡ spec.is_digit byte }
{
    byte >= b'0' && byte <= b'9'
}

#[tactic(auto, unfolding(crate::specs::Bytes::is_word_byte))]
fn is_word_byte(byte: u8) -> bool
    ensures { result ≡ spec.is_word_byte byte }
{
    is_letter(byte) || is_digit(byte)
}

/// How many spaces, tabs and CRs the bytes begin with.
pub fn spaces_len(bytes: &[u8]) -> usize
    ensures value { result ≡ prefix_len spec.is_space bytes.now }
    ensures within { result ≤ length bytes.now }
{
    bytes.iter().take_while(|byte| is_space(**byte)).count()
}

/// How many bytes at the front may belong to one word.
pub fn word_len(bytes: &[u8]) -> usize
    ensures { result ≡ prefix_len spec.is_word_byte bytes.now }
{
    bytes.iter().take_while(|byte| is_word_byte(**byte)).count()
}

/// How many digits the bytes begin with.
pub fn digits_len(bytes: &[u8]) -> usize
    ensures { result ≡ prefix_len spec.is_digit bytes.now }
{
    bytes.iter().take_while(|byte| is_digit(**byte)).count()
}
