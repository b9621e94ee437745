//! What is wished for next, by what is to be released, what is held and what is wanted.
ghost use Rattle.std.specs.Prelude.{◌≡◌, Some};
ghost use Rattle.statement_work.specs.Latches as latches;
ghost use Rattle.statement_work.specs.declared.acts.Act.TheVariants as act;
ghost use Rattle.statement_work.specs.Acting.{Grants};
ghost use Rattle.ro_worker.specs.Wishes as spec;
ghost use Rattle.ro_worker.specs.Wishes.{reads_only, wish_of};

use range_reader::Fetch;
use rm_base::PageId;
use statement_work::Deed;

/// What this worker wishes for.
#[derive(Clone, Copy, Debug, PartialEq, Eq)]
pub(crate) enum ReaderWish {
    Fetch(Fetch),
    Release(PageId),
    Stamp,
}

impl ReaderWish {
    pub(crate) fn deed(self) -> Deed
        ensures { Grants reads_only (wish_of self) (act.Do result) }
    {
        match self {
            ReaderWish::Fetch(fetch) => Deed::Fetch(fetch),
            ReaderWish::Release(page) => Deed::Release(page),
            ReaderWish::Stamp => Deed::Stamp,
        }
    }
}

fn is_child(fetch: &Fetch) -> bool
    ensures { result ≡ latches.is_child fetch.now }
{
    match fetch {
        Fetch::Root(_) => false,
        Fetch::Child(_) => true,
        Fetch::Next(_) => false,
        Fetch::Stamps(_) => false,
        Fetch::Undo(_) => false,
    }
}

fn first(held: Option<PageId>, fetch: Fetch) -> ReaderWish
    ensures { result ≡ spec.first held fetch }
{
    match held {
        Some(page) => ReaderWish::Release(page),
        None => ReaderWish::Fetch(fetch),
    }
}

fn wish_by(child: bool, held: Option<PageId>, fetch: Fetch) -> ReaderWish
    ensures { result ≡ spec.wish_by child held fetch }
{
    if child {
        ReaderWish::Fetch(fetch)
    } else {
        first(held, fetch)
    }
}

fn release(held: Option<PageId>) -> Option<ReaderWish>
    ensures { result ≡ spec.release held }
{
    match held {
        Some(page) => Some(ReaderWish::Release(page)),
        None => None,
    }
}

fn wish_at(held: Option<PageId>, fetch: Option<Fetch>) -> Option<ReaderWish>
    ensures { result ≡ spec.wish_at held fetch }
{
    match fetch {
        Some(fetch) => Some(wish_by(is_child(&fetch), held, fetch)),
        None => release(held),
    }
}

/// What is to be released goes first.
pub(crate) fn wish_for(
    free: Option<PageId>,
    held: Option<PageId>,
    fetch: Option<Fetch>,
) -> Option<ReaderWish>
    ensures { result ≡ spec.wish_for free held fetch }
{
    match free {
        Some(page) => Some(ReaderWish::Release(page)),
        None => wish_at(held, fetch),
    }
}

/// What is to be released once a page was fetched: the page above a child.
pub(crate) fn free_after(fetch: &Fetch, held: Option<PageId>) -> Option<PageId>
    ensures { result ≡ spec.free_after fetch.now held }
{
    match fetch {
        Fetch::Root(_) => None,
        Fetch::Child(_) => held,
        Fetch::Next(_) => None,
        Fetch::Stamps(_) => None,
        Fetch::Undo(_) => None,
    }
}
