//! Decoding beside a plain and slow reading of the grammar.

ghost use Rattle.std.specs.Prelude.{◌≤◌, length, IfSome};

use super::vectors::{FIRST, LINK, OPENING, ROW};
use crate::{BadRecord, decode};
use std::test::Fail;

/// The number in the n bytes from `at` on, as many of them as there are, modulo 2 ^ 64.
fn number(bytes: &[u8], at: usize, n: usize) -> u64 {
    let mut value = 0u64;
    for byte in bytes.iter().skip(at).take(n) {
        value = value.wrapping_mul(256).wrapping_add(u64::from(*byte));
    }
    value
}

/// How many bytes the record at the front has, if one is there.
fn record_len(bytes: &[u8]) -> Option<usize>
    ensures { IfSome result (λ n. n ≤ length bytes.now) }
{
    let does = number(bytes, 0, 1);
    let kind = number(bytes, 5, 1);
    let level = number(bytes, 6, 1);
    let count = number(bytes, 7, 2);
    let (right, len) = match does {
        1 => (
            (1..=6).contains(&kind)
                && if kind == 5 {
                    (1..=8).contains(&level)
                } else {
                    level == 0
                },
            7,
        ),
        2 | 3 => ((1..=4064).contains(&count), count.wrapping_add(9)),
        4 | 5 => (true, 7),
        6 => (number(bytes, 5, 4) < 32768, 9),
        _ => (false, 0),
    };
    let len = len as usize;
    if right && number(bytes, 1, 4) < 32768 && len <= bytes.len() {
        Some(len)
    } else {
        None
    }
}

/// How many bytes the group at the front has, or where it is refused.
fn slow(bytes: &[u8]) -> Result<usize, BadRecord> {
    let size = number(bytes, 0, 4) as usize;
    let count = number(bytes, 12, 2);
    if bytes.len() < 14
        || size < 14
        || size > bytes.len()
        || count == 0
        || number(bytes, 4, 8) == 0
    {
        return Err(BadRecord { at: 0 });
    }
    let mut at = 14;
    for _ in 0..count {
        match record_len(&bytes[at..size]) {
            Some(len) => at += len,
            None => return Err(BadRecord { at }),
        }
    }
    if at == size {
        Ok(size)
    } else {
        Err(BadRecord { at: 0 })
    }
}

#[test]
fn each_byte_made_255_is_judged_alike(rt: HostRuntime) -> Result<(), Fail> {
    let vectors: [&[u8]; 4] = [&FIRST, &ROW, &LINK, &OPENING];
    for vector in vectors {
        for place in 0..vector.len() {
            let mut bytes = vector.to_vec(rt.alloc())?;
            bytes[place] = 255;
            let judged = decode(rt.alloc(), &bytes)?.map(|(_, size)| size);
            assert_eq!(rt; judged, slow(&bytes), "at {place}");
        }
    }
    Ok(())
}
