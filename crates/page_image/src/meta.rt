//! What the meta page says.
ghost use Rattle.std.specs.Prelude.{◌≡◌};
ghost use Rattle.page_image.specs.Meta as spec;

use crate::kind::Kind;
use crate::page::Page;
use rm_base::get_u32;

/// Where a meta page has the number of pages, in bytes; the undo page in use stands behind it.
pub const PAGE_COUNT_AT: u16 = 36;

/// The number of pages that the meta page counts.
pub fn page_count(meta: &Page) -> u32
    requires { meta.now.kind ≡ Kind.Meta }
    ensures { result ≡ spec.page_count meta.now }
{
    get_u32(meta.bytes(), usize::from(PAGE_COUNT_AT))
}
