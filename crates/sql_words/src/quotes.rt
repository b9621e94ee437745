ghost use Rattle.std.specs.Prelude.{◌≡◌, ◌<◌, ◌≤◌, length, IfSome};
ghost use Rattle.sql_words.specs.Front as spec;

use crate::bytes::QUOTE;

/// How many bytes there are up to the closing quote of a text, and with it. None where no quote closes
/// it. Two quotes in a row are one of the text.
pub fn closing(bytes: &[u8]) -> Option<usize>
    ensures value { result ≡ spec.closing bytes.now }
    ensures within { IfSome result (λ n. (0 < n) × (n ≤ length bytes.now)) }
{
    let mut at = 0;
    while at < bytes.len() {
        if bytes[at] != QUOTE {
            at += 1;
        } else if at + 1 < bytes.len() && bytes[at + 1] == QUOTE {
            at += 2;
        } else {
            return Some(at + 1);
        }
    }
    None
}
