//! Whether a page is one that can be given.
ghost use Rattle.std.specs.Prelude.{IsTrue, ◌↔◌};
ghost use Rattle.range_reader.specs.Finding.{Fits};
ghost use Rattle.statement_work.specs.Works.{IsFixed};

use crate::acts::FixedPage;
use page_image::{Kind, Page};
use range_reader::Fetch;
use rm_base::{META_PAGE_ID, SLOTS_PAGE_ID};

/// Whether a page is the one that a fetch asks for, and can be given for it.
pub fn fits(fetch: &Fetch, page: &Page) -> bool
    ensures { IsTrue result ↔ Fits fetch.now page.now }
{
    page.page() == fetch.page() && fetch.suits(page)
}

/// Whether a page is the meta or the slots page, as asked.
pub fn is_fixed(place: FixedPage, page: &Page) -> bool
    ensures { IsTrue result ↔ IsFixed place page.now }
{
    match place {
        FixedPage::Meta => page.page().number() == META_PAGE_ID && page.kind() == Kind::Meta,
        FixedPage::Slots => page.page().number() == SLOTS_PAGE_ID && page.kind() == Kind::Slots,
    }
}
