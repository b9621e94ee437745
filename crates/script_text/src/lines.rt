//! The lines of a script.
ghost use Rattle.std.specs.Prelude.{◌≡◌, ◌<◌, [], ◌∷◌, IfSome, IfNone, length};
ghost use Rattle.std.specs.Str.Lines.{strip_carriage_return};
ghost use Rattle.script_text.specs.Lines as spec;

use crate::cuts::{Cut, cut_at};

/// A line, and what stands behind it.
#[derive(Clone, Copy)]
pub struct Line<'a> {
    pub text: &'a [u8],
    pub behind: &'a [u8],
}

fn without_cr(line: &[u8]) -> &[u8]
    ensures { result.now ≡ strip_carriage_return line.now }
{
    match line {
        [front @ .., last] => { if *last == b'\r' { front } else { line } }
        [] => line,
    }
}

/// The first line. None where there are no bytes.
pub fn next_line(bytes: &[u8]) -> Option<Line<'_>>
    ensures some { IfSome result (λ l. spec.lines bytes.now ≡ l.text.now ∷ spec.lines l.behind.now) }
    ensures shorter { IfSome result (λ l. length l.behind.now < length bytes.now) }
    ensures none { IfNone result (spec.lines bytes.now ≡ []) }
{
    if bytes.is_empty() {
        return None;
    }
    match cut_at(bytes, b'\n') {
        Some(Cut { before, behind }) => Some(Line {
            text: without_cr(before),
            behind,
        }),
        None => Some(Line {
            text: bytes,
            behind: &[],
        }),
    }
}

/// Whether the line is UTF-8.
#[tactic(auto, unfolding(crate::specs::Lines::is_utf8))]
pub fn is_utf8(line: &[u8]) -> bool
    ensures { result ≡ spec.is_utf8 line.now }
{
    match str::from_utf8(line) {
        Ok(_) => true,
        Err(_) => false,
    }
}

/// Whether the line is empty or a comment.
#[tactic(auto, unfolding(crate::specs::Lines::is_passed_over))]
pub fn is_passed_over(line: &[u8]) -> bool
    ensures { result ≡ spec.is_passed_over line.now }
{
    match line {
        [first, ..] => *first == b'#',
        [] => true,
    }
}
