//! Which number a transaction that begins gets, and whether one can commit.
ghost use Rattle.std.specs.Prelude.{◌≡◌, ◌≤◌};
ghost use Rattle.page_image.specs.Meta.{IsMeta, IsSlots};
ghost use Rattle.transaction_edits.specs.Works as spec;

use commit_stamps::{last_stamp, next_number, slot_of, stamp_page};
use page_image::Page;
use rm_base::{MAX_PAGE_ID, MAX_TRX_ID, SessionId};

/// What the meta page says of the next number.
#[derive(Clone, Copy, Debug, PartialEq, Eq)]
pub enum Number {
    /// A transaction can have it.
    Next,
    /// Each number is given.
    AllGiven,
    /// It is none that can be.
    Wrong,
}

pub(crate) fn number_of(meta: &Page) -> Number
    requires { IsMeta meta.now }
    ensures { result ≡ spec.number_of meta.now }
{
    let next = next_number(meta).number();
    if next > 0 && next <= MAX_TRX_ID {
        Number::Next
    } else if next == MAX_TRX_ID + 1 {
        Number::AllGiven
    } else {
        Number::Wrong
    }
}

/// Whether the session has a transaction that can commit.
pub(crate) fn can_commit(session: SessionId, meta: &Page, slots: &Page) -> bool
    requires meta { IsMeta meta.now }
    requires slots { IsSlots slots.now }
    ensures { result ≡ spec.can_commit session meta.now slots.now }
{
    let trx = slot_of(slots, session).trx;
    trx.number() > 0
        && stamp_page(trx) <= u64::from(MAX_PAGE_ID)
        && last_stamp(meta).number() < u64::MAX
}
