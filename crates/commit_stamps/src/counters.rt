//! The numbers of the meta page; how many pages are taken says `page_image`.
ghost use Rattle.std.specs.Prelude.{◌≡◌};
ghost use Rattle.page_image.specs.Meta.{IsMeta, counters_of};

use crate::body::{u32_in, u64_in};
use page_image::Page;
use rm_base::{Stamp, TrxId};

/// The undo page in use.
pub fn undo_page(meta: &Page) -> u32
    requires { IsMeta meta.now }
    ensures { result ≡ (counters_of meta.now).undo_page }
{
    u32_in(meta, 8)
}

/// The number that the next transaction gets.
pub fn next_number(meta: &Page) -> TrxId
    requires { IsMeta meta.now }
    ensures { result ≡ (counters_of meta.now).next }
{
    TrxId::new(u64_in(meta, 12))
}

/// The stamp of the last commit, 0 before the first.
pub fn last_stamp(meta: &Page) -> Stamp
    requires { IsMeta meta.now }
    ensures { result ≡ (counters_of meta.now).last }
{
    Stamp::new(u64_in(meta, 20))
}
