ghost use Rattle.std.specs.Prelude.{◌≡◌, ◌<◌, ℕ, length, nat_lt, if◌then◌else◌, IfOk};
ghost use Rattle.storage_service.specs.Storage.{chunk_at};
ghost use Rattle.storage_service.specs.Keeping.{IsBlank};

use page_chunks::PageChunk;
use rm_base::{Lsn, WantOfMemory};
use std::alloc::Global;

/// The number of chunks.
pub(crate) const CHUNKS: u8 = 128;

/// Each chunk before a group is shipped to it, by its number.
pub(crate) fn blank_chunks(alloc: Global) -> Result<Vec<PageChunk>, WantOfMemory>
    ensures all { IfOk result (λ chunks. length chunks.items ≡ 128) }
    ensures each { IfOk result (λ chunks. (c : ℕ) → c < length chunks.items
        → IsBlank c (chunk_at chunks.items c)) }
{
    let mut chunks = Vec::with_capacity(alloc, usize::from(CHUNKS))?;
    for number in 0..CHUNKS {
        chunks.push(PageChunk::new(alloc, number)?)?;
    }
    Ok(chunks)
}

/// How many chunks are behind once the log has grown: all of them, where it has.
pub(crate) fn behind_after(before: Lsn, after: Lsn, behind: usize) -> usize
    ensures { result ≡ (if nat_lt before after then 128 else behind) }
{
    if before < after {
        return usize::from(CHUNKS);
    }
    behind
}
