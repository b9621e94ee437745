//! Fields of the pages that have a body of fields.
ghost use Rattle.std.specs.Prelude.{◌≡◌, ◌≤◌, ◌+◌, ◌-◌, true, drop};
ghost use Rattle.rm_base.specs.Fields.{number};
ghost use Rattle.page_image.specs.Image.{has_body};
ghost use Rattle.page_image.specs.Rules.{IsImage};

use page_image::Page;
use rm_base::{PAGE_BYTES, PAGE_HEADER_BYTES, get_u16, get_u32, get_u64};

/// The number in the 8 bytes of the body from `at` on.
#[tactic(auto, using(crate::proofs::BodyLaws::field_is))]
pub(crate) fn u64_in(page: &Page, at: usize) -> u64
    requires body { has_body page.now.kind ≡ true }
    requires within { at + 8 ≤ PAGE_BYTES - PAGE_HEADER_BYTES }
    ensures { result ≡ number 8 (drop at page.now.body) }
{
    get_u64(page.bytes(), PAGE_HEADER_BYTES + at)
}

/// The number in the 4 bytes of the body from `at` on.
#[tactic(auto, using(crate::proofs::BodyLaws::field_is))]
pub(crate) fn u32_in(page: &Page, at: usize) -> u32
    requires body { has_body page.now.kind ≡ true }
    requires within { at + 4 ≤ PAGE_BYTES - PAGE_HEADER_BYTES }
    ensures { result ≡ number 4 (drop at page.now.body) }
{
    get_u32(page.bytes(), PAGE_HEADER_BYTES + at)
}

/// The number in the 2 bytes of the body from `at` on.
#[tactic(auto, using(crate::proofs::BodyLaws::field_is))]
pub(crate) fn u16_in(page: &Page, at: usize) -> u16
    requires body { has_body page.now.kind ≡ true }
    requires within { at + 2 ≤ PAGE_BYTES - PAGE_HEADER_BYTES }
    ensures { result ≡ number 2 (drop at page.now.body) }
{
    get_u16(page.bytes(), PAGE_HEADER_BYTES + at)
}

/// A page keeps the rules of pages. It does nothing when it is run.
pub(crate) fn keeps_rules(page: &Page)
    ensures { IsImage page.now }
{
    let _bytes = page.bytes();
}
