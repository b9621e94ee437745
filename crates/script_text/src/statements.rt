//! Lines in which a session hands in a statement.
ghost use Rattle.std.specs.Prelude.{◌≡◌};
ghost use Rattle.script_text.specs.Statements as spec;
ghost use Rattle.script_text.specs.Words.{is_blank};

use crate::cuts::{Cut, cut_at};
use crate::forms::Form;
use crate::names::SessionName;
use crate::words::Part;

/// Whether the text is of spaces, tabs and CRs alone.
fn is_blank(text: &[u8]) -> bool
    ensures { result ≡ is_blank text.now }
{
    text.iter()
        .all(|b| *b == b' ' || *b == b'\t' || *b == b'\r')
}

/// What stands behind the colon: a space, and a text that is not blank.
#[tactic(auto, unfolding(crate::specs::Statements::text_of))]
fn text_of(behind: &[u8]) -> Option<Part<'_>>
    ensures { result ≡ spec.text_of behind.now }
{
    match behind {
        [first, text @ ..] => {
            if *first == b' ' && !is_blank(text) {
                Some(Part::new(text))
            } else {
                None
            }
        }
        [] => None,
    }
}

/// The statement that a line hands in: a session's name, a colon, a space and a text.
#[tactic(auto, unfolding(crate::specs::Statements::statement_of))]
pub fn statement_of(line: &[u8]) -> Option<Form<'_>>
    ensures { result ≡ spec.statement_of line.now }
{
    match cut_at(line, b':') {
        Some(Cut { before, behind }) => {
            let name = SessionName::new(before)?;
            let text = text_of(behind)?;
            Some(Form::Submit(name, text))
        }
        None => None,
    }
}
