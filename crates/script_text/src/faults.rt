//! What is printed of a script that is refused.
ghost use Rattle.std.specs.Prelude.{◌≡◌, ◌++◌, IfOk, OnOk, decimal};
ghost use Rattle.script_text.specs.Faults as spec;

use crate::whys::{BadScript, Why};
use rm_base::{Text, WantOfMemory};
use std::alloc::Global;

impl Why {
    /// The word for it.
    pub fn word(self) -> &'static [u8]
        ensures { result.now ≡ spec.word_of self }
    {
        match self {
            Why::Shape => b"shape",
            Why::Form => b"form",
            Why::Number => b"number",
            Why::Node => b"node",
            Why::Slab => b"slab",
            Why::Session => b"session",
            Why::Twice => b"twice",
            Why::Later => b"later",
        }
    }
}

fn append_number(
    alloc: Global,
    out: &mut Text,
    words: &[u8],
    number: u32,
) -> Result<(), WantOfMemory>
    ensures { OnOk result (out.new ≡ out.old ++ (words.now ++ decimal number)) }
{
    out.append(words)?;
    out.append(format!(in alloc; "{number}")?.as_bytes())
}

fn append_why(out: &mut Text, why: Why) -> Result<(), WantOfMemory>
    ensures { OnOk result (out.new ≡ out.old ++ spec.why_text why) }
{
    out.append(b": ")?;
    out.append(why.word())?;
    out.push(b'\n')
}

/// The line that is printed where a script is refused.
pub fn fault_text(alloc: Global, bad: &BadScript) -> Result<Text, WantOfMemory>
    ensures { IfOk result (λ text. text ≡ spec.fault_text bad.now) }
{
    let mut out = Text::new(alloc);
    append_number(alloc, &mut out, b"bad script line ", bad.line)?;
    append_why(&mut out, bad.why)?;
    Ok(out)
}
