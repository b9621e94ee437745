//! Symbols as text, with a space between two of them.

ghost use Rattle.std.specs.Prelude.{◌≡◌, ◌++◌, ◌∷◌, [], IfOk, pos, decimal};
ghost use Rattle.sql_words.specs.Tokens.{doubled, quoted};
ghost use Rattle.sql_front.specs.Printed as spec;
ghost use Rattle.sql_front.specs.Printed.{written, spaced};
ghost use Rattle.sql_front.specs.Symbols as symbol;

use rm_base::{Name, Text, WantOfMemory};
use sql_words::{Sign, Word};
use std::alloc::Global;

const QUOTE: u8 = b'\'';

/// A space, where something is written before.
#[tactic(auto, using(crate::proofs::Writing::spaced_none, crate::proofs::Writing::spaced_some))]
fn space(out: &mut Text) -> Result<(), WantOfMemory>
    ensures { IfOk result (λ _. out.new ≡ spaced out.old) }
{
    if out.is_empty() {
        return Ok(());
    }
    out.push(b' ')
}

fn token(out: &mut Text, bytes: &[u8]) -> Result<(), WantOfMemory>
    ensures { IfOk result (λ _. out.new ≡ spaced out.old ++ bytes.now) }
{
    space(out)?;
    out.append(bytes)
}

pub fn word(out: &mut Text, word: Word) -> Result<(), WantOfMemory>
    ensures { IfOk result (λ _. out.new ≡ written out.old (symbol.word word ∷ [])) }
{
    token(out, word.spelling())
}

pub fn sign(out: &mut Text, sign: Sign) -> Result<(), WantOfMemory>
    ensures { IfOk result (λ _. out.new ≡ written out.old (symbol.sign sign ∷ [])) }
{
    token(out, sign.spelling())
}

pub fn name(out: &mut Text, name: &Name) -> Result<(), WantOfMemory>
    ensures { IfOk result (λ _. out.new ≡ written out.old (symbol.name name.now ∷ [])) }
{
    token(out, name.as_slice())
}

fn number(alloc: Global, out: &mut Text, number: u64) -> Result<(), WantOfMemory>
    ensures { IfOk result (λ _. out.new ≡ written out.old (symbol.number number ∷ [])) }
{
    let digits = format!(in alloc; "{number}")?;
    token(out, digits.as_bytes())
}

/// A number with its sign, as one token or two.
pub fn integer(alloc: Global, out: &mut Text, integer: i64) -> Result<(), WantOfMemory>
    ensures { IfOk result (λ _. out.new ≡ written out.old (spec.int_symbols integer)) }
{
    if integer < 0 {
        sign(out, Sign::Minus)?;
        return number(alloc, out, integer.unsigned_abs());
    }
    number(alloc, out, integer.unsigned_abs())
}

/// A byte of a text, a quote twice.
fn byte(out: &mut Text, byte: u8) -> Result<(), WantOfMemory>
    ensures { IfOk result (λ _. out.new ≡ out.old ++ doubled (byte ∷ [])) }
{
    if byte == QUOTE {
        out.push(QUOTE)?;
    }
    out.push(byte)
}

#[tactic(auto, using(crate::proofs::Writing::doubled_each))]
fn content(out: &mut Text, bytes: &[u8]) -> Result<(), WantOfMemory>
    ensures { IfOk result (λ _. out.new ≡ out.old ++ doubled bytes.now) }
{
    'bytes: for next in bytes {
        byte(out, *next)?;
    }
    Ok(())
}

pub fn text(out: &mut Text, bytes: &[u8]) -> Result<(), WantOfMemory>
    ensures { IfOk result (λ _. out.new ≡ written out.old (symbol.text bytes.now ∷ [])) }
{
    space(out)?;
    out.push(QUOTE)?;
    content(out, bytes)?;
    out.push(QUOTE)
}
