//! The token at the front of bytes that do not begin with white space.

ghost use Rattle.std.specs.Prelude.{◌≡◌, ◌<◌, ◌≤◌, length, slice_index, IfOk, IfErr};
ghost use Rattle.sql_words.specs.Front as spec;

use crate::bytes::{QUOTE, digits_len, is_digit, is_letter, word_len};
use crate::numbers::number_in;
use crate::quotes::closing;
use crate::reserved::reserved;
use crate::signs::Sign;
use crate::tokens::Class;
use rm_base::MAX_NAME_BYTES;

/// The number after the greatest one, which is allowed behind a minus.
const PAST_THE_GREATEST: u64 = 9223372036854775808;

/// A token's class, and its length in bytes.
#[derive(Clone, Copy)]
pub struct Front {
    pub class: Class,
    pub len: usize,
}

/// The token, or where behind the front the bytes have their fault. `minus` says that the token before
/// is `-`, `joined` that a number ends right before the bytes.
pub fn cut_front(minus: bool, joined: bool, bytes: &[u8]) -> Result<Front, usize>
    requires { 0 < length bytes.now }
    ensures value { result ≡ spec.front_of minus joined bytes.now }
    ensures token { IfOk result (λ f. (0 < f.len) × (f.len ≤ length bytes.now)) }
    ensures fault { IfErr result (λ n. n ≤ length bytes.now) }
{
    by_first_byte(minus, joined, bytes)
}

#[tactic(auto, unfolding(crate::specs::Front::front_of))]
fn by_first_byte(minus: bool, joined: bool, bytes: &[u8]) -> Result<Front, usize>
    requires { 0 < length bytes.now }
    ensures { result ≡ spec.front_of minus joined bytes.now }
{
    let byte = bytes[0];
    if is_letter(byte) {
        return word(joined, bytes);
    }
    if is_digit(byte) {
        return number(minus, bytes);
    }
    if byte == QUOTE {
        return text(bytes);
    }
    sign(byte, second(bytes))
}

#[tactic(auto, unfolding(crate::specs::Front::word_at))]
fn word(joined: bool, bytes: &[u8]) -> Result<Front, usize>
    ensures { result ≡ spec.word_at joined bytes.now }
{
    let len = word_len(bytes);
    if joined {
        return Err(0);
    }
    match reserved(&bytes[..len]) {
        Some(word) => found(Class::Reserved(word), len),
        None => {
            if len <= MAX_NAME_BYTES {
                found(Class::Name, len)
            } else {
                Err(0)
            }
        }
    }
}

#[tactic(auto, unfolding(crate::specs::Front::number_at))]
fn number(minus: bool, bytes: &[u8]) -> Result<Front, usize>
    ensures { result ≡ spec.number_at minus bytes.now }
{
    let len = digits_len(bytes);
    match number_in(&bytes[..len]) {
        Some(number) => {
            if minus || number < PAST_THE_GREATEST {
                found(Class::Number, len)
            } else {
                Err(0)
            }
        }
        None => Err(0),
    }
}

#[tactic(auto, unfolding(crate::specs::Front::text_at))]
fn text(bytes: &[u8]) -> Result<Front, usize>
    requires { 0 < length bytes.now }
    ensures { result ≡ spec.text_at bytes.now }
{
    let behind = &bytes[1..];
    match closing(behind) {
        Some(len) => match str::from_utf8(&behind[..len - 1]) {
            Ok(_) => found(Class::Text, len + 1),
            Err(fault) => Err(fault.valid_up_to() + 1),
        },
        None => Err(0),
    }
}

fn second(bytes: &[u8]) -> u8
    ensures { result ≡ slice_index bytes.now 1 }
{
    if bytes.len() > 1 { bytes[1] } else { 0 }
}

#[tactic(auto, unfolding(crate::specs::Front::sign_at))]
fn sign(byte: u8, next: u8) -> Result<Front, usize>
    ensures { result ≡ spec.sign_at byte next }
{
    match byte {
        b'(' => found(Class::Sign(Sign::Open), 1),
        b')' => found(Class::Sign(Sign::Close), 1),
        b',' => found(Class::Sign(Sign::Comma), 1),
        b'.' => found(Class::Sign(Sign::Dot), 1),
        b';' => found(Class::Sign(Sign::Semicolon), 1),
        b'*' => found(Class::Sign(Sign::Star), 1),
        b'+' => found(Class::Sign(Sign::Plus), 1),
        b'-' => found(Class::Sign(Sign::Minus), 1),
        b'=' => found(Class::Sign(Sign::Eq), 1),
        b'!' if next == b'=' => found(Class::Sign(Sign::Ne), 2),
        b'<' if next == b'=' => found(Class::Sign(Sign::Le), 2),
        b'<' if next == b'>' => found(Class::Sign(Sign::Ne), 2),
        b'<' => found(Class::Sign(Sign::Lt), 1),
        b'>' if next == b'=' => found(Class::Sign(Sign::Ge), 2),
        b'>' => found(Class::Sign(Sign::Gt), 1),
        _ => Err(0),
    }
}

fn found(class: Class, len: usize) -> Result<Front, usize>
    ensures { result ≡ spec.found class len }
{
    Ok(Front { class, len })
}
