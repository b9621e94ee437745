ghost use Rattle.std.specs.Prelude.{◌≡◌, ◌≤◌, ℕ, List, IfOk, if◌then◌else◌};
ghost use Rattle.sql_words.specs.Bytes.{is_quote};
ghost use Rattle.sql_words.specs.Tokens.{quoted};

use crate::bytes::QUOTE;
use rm_base::{Text, WantOfMemory};
use std::alloc::Global;

/// The content of a text token: what stands between its quotes, two quotes in a row as one.
pub fn content_of(alloc: Global, token: &[u8]) -> Result<Text, WantOfMemory>
    ensures { (content : List ℕ) → token.now ≡ quoted content → IfOk result (λ t. t ≡ content) }
{
    let mut content = Text::new(alloc);
    let (_, mut left) = token.split_at(token.len().min(1));
    'bytes: while left.len() > 1 {
        let byte = left[0];
        content.push(byte)?;
        let (_, behind) = left.split_at(width(byte));
        left = behind;
    }
    Ok(content)
}

/// How many bytes a byte of a text takes between the quotes.
fn width(byte: u8) -> usize
    ensures value { result ≡ (if is_quote byte then 2 else 1) }
    ensures few { result ≤ 2 }
{
    if byte == QUOTE { 2 } else { 1 }
}
