//! Bytes that are cut in two.
ghost use Rattle.std.specs.Prelude.{◌≡◌, ◌==◌, ◌<◌, ◌≤◌, IfSome, IfNone, length};
ghost use Rattle.std.specs.List.{position, position_or_len, before_first, after_first};

/// What stands before a byte, and what behind it.
#[derive(Clone, Copy)]
pub struct Cut<'a> {
    pub before: &'a [u8],
    pub behind: &'a [u8],
}

/// The index of the first such byte.
fn place_of(bytes: &[u8], byte: u8) -> Option<usize>
    ensures { result ≡ position (λ b. b == byte) bytes.now }
{
    bytes.iter().position(|b| *b == byte)
}

/// The bytes before and behind the first such byte. None where there is none.
pub fn cut_at(bytes: &[u8], byte: u8) -> Option<Cut<'_>>
    ensures place { IfSome result (λ c. position_or_len (λ b. b == byte) bytes.now < length bytes.now) }
    ensures before { IfSome result (λ c. c.before.now ≡ before_first (λ b. b == byte) bytes.now) }
    ensures behind { IfSome result (λ c. c.behind.now ≡ after_first (λ b. b == byte) bytes.now) }
    ensures none { IfNone result (length bytes.now ≤ position_or_len (λ b. b == byte) bytes.now) }
{
    match place_of(bytes, byte) {
        Some(n) => Some(Cut {
            before: &bytes[..n],
            behind: &bytes[n + 1..],
        }),
        None => None,
    }
}
