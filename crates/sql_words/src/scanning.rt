ghost use Rattle.std.specs.Prelude.{◌≡◌, List, Some, None, IfOk, MatchResult};
ghost use Rattle.sql_words.specs.Lexed.{Lexed};
ghost use Rattle.sql_words.specs.Tokens.{AreTokensOf, AscendIn, HasOneReading};
ghost use Rattle.sql_words.specs.Tokens as spec;

use crate::bytes::spaces_len;
use crate::cutting::{Front, cut_front};
use crate::signs::Sign;
use crate::tokens::{BadWord, Class, Token, Tokens};
use rm_base::WantOfMemory;
use std::alloc::Global;

/// The tokens of a text up to its end, or up to its first fault.
#[derive(Debug, Drop)]
pub struct Reading<'a> {
    pub tokens: Tokens<'a>,
    /// The offset of the first byte that begins no token.
    pub fault: Option<usize>,
}

/// The tokens of a text. Where a byte begins no token, those before it.
pub fn scan<'a>(alloc: Global, text: &'a [u8]) -> Result<Reading<'a>, WantOfMemory>
    ensures tokens { IfOk result (λ s. AreTokensOf text.now s.tokens s.fault) }
    ensures slices { IfOk result (λ s. AscendIn text.now 0 s.tokens) }
{
    let mut tokens = Tokens::new(alloc);
    let mut before = None;
    let mut at = 0;
    let mut rest = text;
    'tokens: loop {
        let (blanks, visible) = rest.split_at(spaces_len(rest));
        at += blanks.len();
        if visible.is_empty() {
            return Ok(Reading {
                tokens,
                fault: None,
            });
        }
        match cut_front(is_minus(before), is_joined(before, blanks), visible) {
            Ok(Front { class, len }) => {
                let (text, behind) = visible.split_at(len);
                tokens.push(Token { text, at, class })?;
                before = Some(class);
                at += len;
                rest = behind;
            }
            Err(offset) => {
                return Ok(Reading {
                    tokens,
                    fault: Some(at + offset),
                });
            }
        }
    }
}

/// The tokens of a text, or where it has a byte that begins no token: one that no token has in front, a
/// quote that is never closed, a byte of a text that is not UTF-8, a word that directly follows a number,
/// a name of more than 32 bytes, a number above 9223372036854775807, or by one more behind a `-`.
pub fn words<'a>(alloc: Global, text: &'a [u8]) -> Result<Result<Tokens<'a>, BadWord>, WantOfMemory>
    ensures whole { IfOk result (λ r. MatchResult r (λ ts. AreTokensOf text.now ts None)
        (λ e. (ts : List Lexed) × AreTokensOf text.now ts (Some e.at))) }
    ensures slices { IfOk result (λ r. IfOk r (λ ts. AscendIn text.now 0 ts)) }
{
    let reading = scan(alloc, text)?;
    match reading.fault {
        None => Ok(Ok(reading.tokens)),
        Some(at) => Ok(Err(BadWord { at })),
    }
}

/// A text is read in one way. It does nothing when it is run.
#[tactic(auto, using(crate::proofs::ReadingLaws::one_reading))]
pub fn one_reading()
    ensures { HasOneReading }
{}

fn is_minus(before: Option<Class>) -> bool
    ensures { result ≡ spec.is_minus before }
{
    matches!(before, Some(Class::Sign(Sign::Minus)))
}

/// Whether a number ends right before what stands behind the blanks.
fn is_joined(before: Option<Class>, blanks: &[u8]) -> bool
    ensures { result ≡ spec.is_joined before blanks.now }
{
    match blanks {
        [] => matches!(before, Some(Class::Number)),
        _ => false,
    }
}
