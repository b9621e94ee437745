//! The rules of a page read once more, slowly, to judge bytes beside `Page::check`.
ghost use Rattle.std.specs.Prelude.{◌≤◌};

fn byte(bytes: &[u8], at: usize) -> u8 {
    bytes.get(at).copied().unwrap_or(0)
}

fn number_16(bytes: &[u8], at: usize) -> u16
    requires { at ≤ 200000 }
{
    u16::from(byte(bytes, at)) * 256 + u16::from(byte(bytes, at + 1))
}

fn number_32(bytes: &[u8], at: usize) -> u32
    requires { at ≤ 100 }
{
    u32::from(number_16(bytes, at)) * 65536 + u32::from(number_16(bytes, at + 2))
}

fn number_64(bytes: &[u8], at: usize) -> u64
    requires { at ≤ 50 }
{
    u64::from(number_32(bytes, at)) * 4294967296 + u64::from(number_32(bytes, at + 4))
}

/// The fields of the header, each with its rule.
fn bad_field(bytes: &[u8]) -> Option<usize> {
    let kind = byte(bytes, 0);
    let items = kind == 4 || kind == 5 || kind == 6;
    let slots = usize::from(number_16(bytes, 2));
    let lsn = number_64(bytes, 8);
    let next = number_32(bytes, 24);
    let low = number_16(bytes, 28);
    let level = byte(bytes, 30);
    let last = if slots == 0 {
        4096
    } else {
        number_16(bytes, 32 + 2 * (slots - 1))
    };
    let rules = [
        (0, kind <= 6),
        (1, byte(bytes, 1) == 0),
        (2, if items { slots <= 1354 } else { slots == 0 }),
        (4, number_32(bytes, 4) < 32768),
        (8, (kind == 0) == (lsn == 0)),
        (16, number_64(bytes, 16) <= lsn),
        (24, if items { next < 32768 } else { next == 0 }),
        (28, if items { low == last } else { low == 0 }),
        (
            30,
            if kind == 5 {
                level >= 1 && level <= 8
            } else {
                level == 0
            },
        ),
        (31, byte(bytes, 31) == 0),
    ];
    for (at, holds) in rules {
        if !holds {
            return Some(at);
        }
    }
    None
}

/// The slots of a page whose header is good.
fn bad_slot(bytes: &[u8]) -> Option<usize> {
    let slots = usize::from(number_16(bytes, 2));
    let mut end = 4096;
    for i in 0..slots {
        let place = usize::from(number_16(bytes, 32 + 2 * i));
        if place >= end || place < 32 + 2 * slots {
            return Some(32 + 2 * i);
        }
        end = place;
    }
    None
}

/// The bytes that should be zero, on a page whose header and slots are good.
fn bad_byte(bytes: &[u8]) -> Option<usize> {
    let from = 32 + 2 * usize::from(number_16(bytes, 2));
    let to = match byte(bytes, 0) {
        0 => 4096,
        1..=3 => from,
        _ => usize::from(number_16(bytes, 28)),
    };
    for at in from..to {
        if byte(bytes, at) != 0 {
            return Some(at);
        }
    }
    None
}

/// Where the bytes are no page.
pub(super) fn fault(bytes: &[u8]) -> Option<usize> {
    if bytes.len() != 4096 {
        return Some(4096);
    }
    if let Some(at) = bad_field(bytes) {
        return Some(at);
    }
    if let Some(at) = bad_slot(bytes) {
        return Some(at);
    }
    bad_byte(bytes)
}
