//! A text as a statement.

ghost use Rattle.std.specs.Prelude.{◌≡◌, ◌↔◌, ◌≤◌, Ok, Err, IfOk, length, map, drop, ◌-◌, ℕ};
ghost use Rattle.sql_statements.specs.declared.statements.Stmt as declared;
ghost use Rattle.sql_front.specs.Good.{AreGood};
ghost use Rattle.sql_front.specs.Sentences as spec;
ghost use Rattle.sql_front.specs.Sentences.{IsSql, IsWrongAt, IsFirst, ReadsAll};
ghost use Rattle.sql_front.specs.Symbols.{symbol_of};

use crate::commands::statement;
use crate::input::Input;
use crate::stopping::Stop;
use rm_base::{MAX_STATEMENT_BYTES, WantOfMemory};
use sql_statements::Stmt;
use sql_words::{Token, one_reading, scan};
use std::alloc::Global;
use thiserror::Error;

/// The text is no statement. `at` is the offset of the first token with which no statement goes on.
#[derive(Clone, Copy, Debug, PartialEq, Eq, Error)]
#[error("syntax at {at}")]
pub struct Syntax {
    pub at: usize,
}

/// Reads all tokens, or answers how many are left where the reader stops.
fn read(alloc: Global, tokens: &[Token<'_>]) -> Result<Result<Stmt, usize>, WantOfMemory>
    requires { AreGood tokens.now }
    ensures { IfOk result (λ read. ReadsAll (map symbol_of tokens.now) read) }
{
    let mut input = Input::new(tokens);
    match statement(alloc, &mut input) {
        Ok(stmt) => Ok(Ok(stmt)),
        Err(Stop::Refused) => Ok(Err(input.len())),
        Err(Stop::Memory) => Err(WantOfMemory),
    }
}

/// The offset of the first of the last tokens, so many, or the end where that is none.
fn place(tokens: &[Token<'_>], left: usize, end: usize) -> usize
    requires { left ≤ length tokens.now }
    ensures { result ≡ spec.place (drop (length tokens.now - left) tokens.now) end }
{
    let (_, rest) = tokens.split_at(tokens.len() - left);
    match rest {
        [token, ..] => token.at,
        [] => end,
    }
}

#[tactic(auto, unfolding(crate::specs::Sentences::limited))]
fn limited(len: usize, at: usize) -> Syntax
    ensures { result.at ≡ spec.limited len at }
{
    if len > MAX_STATEMENT_BYTES {
        Syntax {
            at: at.min(MAX_STATEMENT_BYTES),
        }
    } else {
        Syntax { at }
    }
}

/// The statement that a text is, or the first offset at which it is wrong.
pub fn parse(alloc: Global, text: &[u8]) -> Result<Result<Stmt, Syntax>, WantOfMemory>
    ensures statement { IfOk result (λ answer. (s : declared.Stmt) → (answer ≡ Ok s) ↔ IsSql text.now s) }
    ensures syntax { IfOk result (λ answer. (at : ℕ) → (answer ≡ Err (record { at = at })) ↔ IsFirst (IsWrongAt text.now) at) }
{
    one_reading();
    let reading = scan(alloc, text)?;
    let tokens = reading.tokens.as_slice();
    let end = reading.fault.unwrap_or(text.len());
    match read(alloc, tokens)? {
        Ok(stmt) => {
            if reading.fault.is_none() && text.len() <= MAX_STATEMENT_BYTES {
                Ok(Ok(stmt))
            } else {
                drop(stmt);
                Ok(Err(limited(text.len(), end)))
            }
        }
        Err(left) => Ok(Err(limited(text.len(), place(tokens, left, end)))),
    }
}
