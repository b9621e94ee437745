ghost use Rattle.std.specs.Prelude.{◌≡◌, ◌≤◌, ◌<◌, ◌+◌, ◌-◌, ◌++◌, [], length, take, drop, min};

/// Copies the next bytes, those from `at` on, to the front of the buffer: as many as there are, as the
/// buffer holds, and at most `piece`. It answers how many.
pub(crate) fn give(bytes: &[u8], at: usize, piece: usize, buf: &mut [u8]) -> usize
    requires inside { at ≤ length bytes.now }
    requires some { 0 < piece }
    ensures count { result ≡ min (min (length buf.old) (length bytes.now - at)) piece }
    ensures given { drop at bytes.now ≡ take result buf.new ++ drop (at + result) bytes.now }
    ensures end { result ≡ 0 → 0 < length buf.new → drop (at + result) bytes.now ≡ [] }
{
    let left = &bytes[at..];
    let n = buf.len().min(left.len()).min(piece);
    buf[..n].copy_from_slice(&left[..n]);
    n
}
