//! Numbers and nodes as a script writes them.
ghost use Rattle.std.specs.Prelude.{◌≡◌, ◌<◌};
ghost use Rattle.std.specs.List.{list_all};
ghost use Rattle.sql_words.specs.Bytes.{is_digit};
ghost use Rattle.script_text.specs.Numbers as spec;

use sql_words::number_in;

const MAX_DIGITS: usize = 9;

pub fn is_digit(byte: u8) -> bool
    ensures { result ≡ is_digit byte }
{
    byte >= b'0' && byte <= b'9'
}

fn all_digits(word: &[u8]) -> bool
    ensures { result ≡ list_all is_digit word.now }
{
    word.iter().all(|b| is_digit(*b))
}

/// 1 to 9 digits.
#[tactic(auto, unfolding(crate::specs::Numbers::is_number))]
fn is_number(word: &[u8]) -> bool
    ensures { result ≡ spec.is_number word.now }
{
    if !all_digits(word) {
        return false;
    }
    !word.is_empty() && word.len() <= MAX_DIGITS
}

/// The number that 1 to 9 digits spell.
#[tactic(auto, using(crate::proofs::NumberLaws::number_facts), unfolding(crate::specs::Numbers::number_of))]
pub fn number_of(word: &[u8]) -> Option<u32>
    ensures { result ≡ spec.number_of word.now }
{
    if !is_number(word) {
        return None;
    }
    let number = number_in(word)?;
    Some(number as u32)
}

/// The number behind an `n`.
#[tactic(auto, unfolding(crate::specs::Numbers::node_of))]
pub fn node_of(word: &[u8]) -> Option<u32>
    ensures { result ≡ spec.node_of word.now }
{
    match word {
        [first, digits @ ..] => {
            if *first == b'n' {
                number_of(digits)
            } else {
                None
            }
        }
        [] => None,
    }
}
