//! The journal's entries as text.
ghost use Rattle.std.specs.Prelude.{◌≡◌, ◌++◌, ◌∷◌, [], ◌<◌, ◌+◌, OnOk, IfOk, IsTrue, true, length, decimal, flat_map};
ghost use Rattle.std.specs.List.{AllByRecursion};
ghost use Rattle.reply_text.specs.Texts as spec;

use crate::replies::{append_number, reply_text};
use rm_base::{NodeId, SessionId, Text, WantOfMemory};
use sql_database::SqlReply;
use std::alloc::Global;
use table_machine::{Entry, SessionNames};

/// The text of an entry: of a reply, an order that was passed over, a node that takes the writes, and of the
/// end, where names are asked for. With `prefix` each line of a reply begins with its session's name.
pub fn entry_text(
    alloc: Global,
    entry: &Entry,
    names: &SessionNames,
    prefix: bool,
) -> Result<Text, WantOfMemory>
    requires { spec.HasNames names.now prefix entry.now }
    ensures { IfOk result (λ text. text ≡ spec.entry_text names.now prefix entry.now) }
{
    match entry {
        Entry::Reply { session, reply } => session_reply(alloc, names, prefix, *session, reply),
        Entry::Ignored { line } => numbered(alloc, b"ignored ", u64::from(*line)),
        Entry::Missed { line } => numbered(alloc, b"missed ", u64::from(*line)),
        Entry::Opened { node } => numbered(alloc, b"open n", u64::from(node.number()) + 1),
        Entry::End { sessions } if prefix => all_unanswered(alloc, names, sessions.as_slice()),
        _ => Ok(Text::new(alloc)),
    }
}

/// What stands before each line of the session's replies.
fn append_before(
    out: &mut Text,
    names: &SessionNames,
    session: SessionId,
) -> Result<(), WantOfMemory>
    requires { session < length names.now }
    ensures { OnOk result (out.new ≡ out.old ++ spec.before_of names.now true session) }
{
    out.append(names.as_slice()[usize::from(session.number())].as_slice())?;
    out.append(b": ")
}

fn session_reply(
    alloc: Global,
    names: &SessionNames,
    prefix: bool,
    session: SessionId,
    reply: &SqlReply,
) -> Result<Text, WantOfMemory>
    requires { IsTrue prefix → session < length names.now }
    ensures { IfOk result (λ text. text ≡ spec.reply_text (spec.before_of names.now prefix session) reply.now) }
{
    let mut before = Text::new(alloc);
    if prefix {
        append_before(&mut before, names, session)?;
    }
    reply_text(alloc, before.as_slice(), reply)
}

/// A line of words and a number.
fn numbered(alloc: Global, words: &[u8], number: u64) -> Result<Text, WantOfMemory>
    ensures { IfOk result (λ text. text ≡ spec.line [] (words.now ++ decimal number)) }
{
    let mut out = Text::new(alloc);
    append_number(alloc, &mut out, words, number)?;
    out.push(b'\n')?;
    Ok(out)
}

fn append_unanswered(
    out: &mut Text,
    names: &SessionNames,
    session: SessionId,
) -> Result<(), WantOfMemory>
    requires { session < length names.now }
    ensures { OnOk result (out.new ≡ out.old ++ spec.unanswered names.now session) }
{
    append_before(out, names, session)?;
    out.append(b"unanswered\n")
}

fn all_unanswered(
    alloc: Global,
    names: &SessionNames,
    sessions: &[SessionId],
) -> Result<Text, WantOfMemory>
    requires { AllByRecursion (λ s. s < length names.now) sessions.now }
    ensures { IfOk result (λ text. text ≡ flat_map (spec.unanswered names.now) sessions.now) }
{
    let mut out = Text::new(alloc);
    for session in sessions {
        append_unanswered(&mut out, names, *session)?;
    }
    Ok(out)
}
