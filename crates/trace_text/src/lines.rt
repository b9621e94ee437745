//! The lines of a trace.
ghost use Rattle.std.specs.Prelude.{◌≡◌, ◌<◌, ◌++◌, IfOk, OnOk, length, flat_map, decimal};
ghost use Rattle.std.specs.List.{AllByRecursion};
ghost use Rattle.trace_text.specs.Texts as spec;

use crate::uses::uses_of;
use cluster_model::{Answered, Origin, Trace, Use};
use rm_base::{Names, Text, WantOfMemory};
use std::alloc::Global;

/// The word for where a page was had from.
fn word_of(origin: Origin) -> &'static [u8]
    ensures { result.now ≡ spec.word_of origin }
{
    match origin {
        Origin::Local => b"local",
        Origin::Pool => b"pool",
        Origin::Storage => b"storage",
    }
}

fn append_number(
    alloc: Global,
    out: &mut Text,
    words: &[u8],
    number: u64,
) -> Result<(), WantOfMemory>
    ensures { OnOk result (out.new ≡ out.old ++ (words.now ++ decimal number)) }
{
    out.append(words)?;
    out.append(format!(in alloc; "{number}")?.as_bytes())
}

/// A statement by its session's name and its number there.
fn append_statement(
    alloc: Global,
    out: &mut Text,
    names: &Names,
    answered: &Answered,
) -> Result<(), WantOfMemory>
    requires { answered.now.session < length names.now }
    ensures { OnOk result (out.new ≡ out.old ++ spec.statement_words names.now answered.now) }
{
    out.append(b"trace ")?;
    out.append(names.as_slice()[usize::from(answered.session.number())].as_slice())?;
    append_number(alloc, out, b" ", u64::from(answered.number))
}

fn append_page(alloc: Global, out: &mut Text, used: &Use) -> Result<(), WantOfMemory>
    ensures { OnOk result (out.new ≡ out.old ++ spec.page_words used.now) }
{
    append_number(alloc, out, b" page ", u64::from(used.page.number()))?;
    append_number(alloc, out, b" lsn ", used.lsn.number())?;
    out.append(b" ")?;
    out.append(word_of(used.origin))
}

fn append_line(
    alloc: Global,
    out: &mut Text,
    names: &Names,
    answered: &Answered,
    used: &Use,
) -> Result<(), WantOfMemory>
    requires { answered.now.session < length names.now }
    ensures { OnOk result (out.new ≡ out.old ++ spec.line names.now answered.now used.now) }
{
    append_statement(alloc, out, names, answered)?;
    append_page(alloc, out, used)?;
    out.push(b'\n')
}

fn append_lines(
    alloc: Global,
    out: &mut Text,
    names: &Names,
    answered: &Answered,
    uses: &[Use],
) -> Result<(), WantOfMemory>
    requires { 0 < length uses.now → answered.now.session < length names.now }
    ensures { OnOk result (out.new ≡ out.old ++ flat_map (spec.line names.now answered.now) uses.now) }
{
    for used in uses {
        append_line(alloc, out, names, answered, used)?;
    }
    Ok(())
}

/// A line for each page that a statement used, once for each LSN and origin.
fn append_uses(
    alloc: Global,
    out: &mut Text,
    trace: &Trace,
    names: &Names,
    answered: &Answered,
) -> Result<(), WantOfMemory>
    requires { spec.HasName names.now trace.now answered.now }
    ensures { OnOk result (out.new ≡ out.old ++ spec.statement_text names.now trace.now answered.now) }
{
    let uses = uses_of(alloc, answered, trace.uses.as_slice())?;
    append_lines(alloc, out, names, answered, uses.as_slice())
}

/// The text of a trace: statements in the order of their replies, and the pages of each in the order of
/// their first use.
pub fn trace_text(alloc: Global, trace: &Trace, names: &Names) -> Result<Text, WantOfMemory>
    requires { AllByRecursion (spec.HasName names.now trace.now) trace.now.answered }
    ensures { IfOk result (λ text. text ≡ spec.trace_text names.now trace.now) }
{
    let mut out = Text::new(alloc);
    for answered in trace.answered.as_slice() {
        append_uses(alloc, &mut out, trace, names, answered)?;
    }
    Ok(out)
}
