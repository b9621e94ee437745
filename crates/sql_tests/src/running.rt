//! Tables of texts and what they are answered.
use crate::plain::Plain;
use rm_base::{Text, WantOfMemory};
use std::alloc::Global;
use std::process::Abort;

/// The texts are answered so, one after the other.
pub(crate) fn session(
    rt: &impl Abort,
    alloc: Global,
    lines: &[(&str, &str)],
) -> Result<(), WantOfMemory> {
    let mut plain = Plain::new(alloc);
    for (text, want) in lines {
        let reply = plain.answer(alloc, text.as_bytes())?;
        assert!(rt; reply.as_slice() == want.as_bytes(), "at {text}");
    }
    Ok(())
}

/// The texts with so many letters x between their two parts are answered so.
pub(crate) fn long_session(
    rt: &impl Abort,
    alloc: Global,
    lines: &[(&str, usize, &str, &str)],
) -> Result<(), WantOfMemory> {
    let mut plain = Plain::new(alloc);
    for (before, count, after, want) in lines {
        let text = repeated(alloc, before, "x", *count, after)?;
        let reply = plain.answer(alloc, text.as_slice())?;
        assert!(rt; reply.as_slice() == want.as_bytes(), "at {before} {count}");
    }
    Ok(())
}

/// The piece so many times, with what stands before and after.
pub(crate) fn repeated(
    alloc: Global,
    before: &str,
    piece: &str,
    count: usize,
    after: &str,
) -> Result<Text, WantOfMemory> {
    let mut text = Text::new(alloc);
    text.append(before.as_bytes())?;
    for _ in 0..count {
        text.append(piece.as_bytes())?;
    }
    text.append(after.as_bytes())?;
    Ok(text)
}
