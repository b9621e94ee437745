ghost use Rattle.std.specs.Prelude.{IfOk, MatchOption};
ghost use Rattle.log_chunks.specs.Log.{AreNext, GoesOn, BeginsNext, BeginsNoNext};

use redo_record::{Group, Groups, decode};
use rm_base::{Items, Lsn, WantOfMemory};
use std::alloc::Global;

/// The group at the front of the bytes, and how many bytes it has. None where there is none or its LSN
/// is not the one after `last`.
fn next_group(
    alloc: Global,
    bytes: &[u8],
    last: u64,
) -> Result<Option<(Group, usize)>, WantOfMemory>
    ensures { IfOk result (λ read. MatchOption read (BeginsNoNext last bytes.now) (λ x. BeginsNext last bytes.now x.0 x.1)) }
{
    match decode(alloc, bytes)? {
        Ok((group, size)) => {
            if last.checked_add(1) == Some(group.lsn.number()) {
                Ok(Some((group, size)))
            } else {
                Ok(None)
            }
        }
        Err(_) => Ok(None),
    }
}

/// The groups that the bytes spell, where they are whole groups with the LSNs after `last`. None
/// exactly where they are not.
pub fn next_groups(alloc: Global, bytes: &[u8], last: Lsn) -> Result<Option<Groups>, WantOfMemory>
    ensures { IfOk result (λ read. MatchOption read (¬ GoesOn last bytes.now) (AreNext last bytes.now)) }
{
    let mut groups = Items::new(alloc);
    let mut rest = bytes;
    let mut before = last.number();
    while !rest.is_empty() {
        let Some((group, size)) = next_group(alloc, rest, before)? else {
            return Ok(None);
        };
        before = group.lsn.number();
        groups.push(group)?;
        let (_, others) = rest.split_at(size);
        rest = others;
    }
    Ok(Some(groups))
}
