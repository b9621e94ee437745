//! The stamps of transactions on their pages.
ghost use Rattle.std.specs.Prelude.{◌≡◌, ◌≤◌, ◌<◌};
ghost use Rattle.commit_stamps.specs.Stamping as spec;

use page_image::{Kind, Page};
use page_view::StampView;
use rm_base::{FIRST_STAMP_PAGE_ID, STAMPS_PER_PAGE, Stamp, TrxId};

/// The number of the page that has the transaction's stamp.
pub fn stamp_page(t: TrxId) -> u64
    requires { 1 ≤ t }
    ensures { result ≡ spec.stamp_page t }
{
    u64::from(FIRST_STAMP_PAGE_ID) + (t.number() - 1) / STAMPS_PER_PAGE as u64
}

/// The place of the transaction's stamp on its page.
pub(crate) fn stamp_place(t: TrxId) -> usize
    requires { 1 ≤ t }
    ensures place { result ≡ spec.stamp_place t }
    ensures bound { result < STAMPS_PER_PAGE }
{
    ((t.number() - 1) % STAMPS_PER_PAGE as u64) as usize
}

/// Whether the page is that of the transaction's stamp.
fn is_stamp_page(page: &Page, t: TrxId) -> bool
    ensures { result ≡ spec.is_stamp_page page.now t }
{
    t.number() >= 1
        && page.kind() == Kind::Stamps
        && u64::from(page.page().number()) == stamp_page(t)
}

/// The transaction's stamp, 0 where it is not committed. None exactly where the page is not the
/// transaction's stamp page.
pub fn stamp_of(page: &Page, t: TrxId) -> Option<Stamp>
    ensures stamp { result ≡ spec.stamp_of page.now t }
{
    if !is_stamp_page(page, t) {
        return None;
    }
    let stamps = StampView::over(page)?;
    stamps.stamp(stamp_place(t))
}

/// Whether a snapshot sees the commit with this stamp.
pub fn visible(stamp: Stamp, snap: Stamp) -> bool
    ensures { result ≡ spec.visible stamp snap }
{
    stamp.number() != 0 && stamp.number() <= snap.number()
}

/// The commits up to a stamp are published.
pub fn publish(at: &mut Stamp, to: Stamp)
    requires { at.old ≤ to }
    ensures { at.new ≡ to }
{
    *at = to;
}
