//! Bytes that are moved along a page.
ghost use Rattle.std.specs.Prelude.{◌≡◌, ◌≤◌, ◌+◌, length};
ghost use Rattle.std.specs.List.{copy_within};

use rm_base::PAGE_BYTES;

/// Moves the bytes from offset `from` up to `end` to offset `to`. They go by way of a copy, as whole slices,
/// which takes a part of the time of a move byte by byte.
pub(crate) fn move_bytes(bytes: &mut [u8], from: usize, end: usize, to: usize)
    requires order { from ≤ end }
    requires within { end ≤ length bytes.old }
    requires room { to + end ≤ length bytes.old + from }
    requires page { length bytes.old ≤ PAGE_BYTES }
    ensures { bytes.new ≡ copy_within bytes.old from end to }
{
    let count = end - from;
    let mut copy = [0u8; PAGE_BYTES];
    copy[..count].copy_from_slice(&bytes[from..end]);
    bytes[to..to + count].copy_from_slice(&copy[..count]);
}
