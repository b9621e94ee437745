use crate::reserved::Word;
use crate::signs::Sign;
use rm_base::Items;
use std::marker::Model;
use thiserror::Error;

/// What a token is. A reserved word and a sign say which one.
#[derive(Clone, Copy, Debug, PartialEq, Eq)]
pub enum Class {
    Reserved(Word),
    Name,
    Number,
    Text,
    Sign(Sign),
}

/// A token: its bytes in the text, the offset of the first of them, and what it is.
#[derive(Debug, Drop)]
pub struct Token<'a> {
    pub text: &'a [u8],
    pub at: usize,
    pub class: Class,
}

impl<'a> Model for Token<'a> {
    ghost use Rattle.sql_words.specs.Lexed.{Lexed};

    ghost Value = { Lexed };

    ghost view = { λ t. record { text = t.text.now; at = t.at; class = t.class } };
}

/// Tokens in the order of the text.
pub type Tokens<'a> = Items<Token<'a>>;

/// The text has a byte that begins no token. `at` is the offset of the first one.
#[derive(Clone, Copy, Debug, PartialEq, Eq, Error)]
#[error("no token at {at}")]
pub struct BadWord {
    pub at: usize,
}
