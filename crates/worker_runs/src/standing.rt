//! Turns over pages that stand still.
ghost use Rattle.std.specs.Prelude.{◌≡◌, List, IfOk, false};
ghost use Rattle.range_reader.specs.Finding.{Fits};
ghost use Rattle.statement_work.specs.Works.{Input, IsFixed};
ghost use Rattle.statement_work.specs.Acting.{Does};
ghost use Rattle.statement_work.specs.Replies.{IsReplyOver};
ghost use Rattle.statement_work.specs.declared.acts.Act.TheVariants as act;
ghost use Rattle.statement_work.specs.Plain.{ClaimsNothing};
ghost use Rattle.worker_runs.specs.Standing.{Standing, deed_input, is_sure};
ghost use Rattle.worker_runs.specs.Runs.{IsTurn};

use page_image::Page;
use range_reader::Fetch;
use rm_base::{Stamp, WantOfMemory};
use sql_database::SqlReply;
use statement_work::{Act, Deed, FixedPage, Given, Job, Worker};
use std::alloc::Global;

/// Pages that stand as they are, whatever is done.
pub trait StillPages {
    ghost now: { Self → Standing };

    fn fetch(&self, alloc: Global, fetch: Fetch) -> Result<Page, WantOfMemory>
        ensures is { IfOk result (λ page. page ≡ (now self.now).page fetch) }
        ensures fits { IfOk result (Fits fetch) };

    fn fetch_fixed(&self, alloc: Global, place: FixedPage) -> Result<Page, WantOfMemory>
        ensures is { IfOk result (λ page. page ≡ (now self.now).fixed place) }
        ensures fits { IfOk result (IsFixed place) };

    fn stamp(&self) -> Stamp
        ensures { result ≡ (now self.now).stamp };
}

/// One turn: the worker is given what stands there. Plans and appends are let go.
#[tactic(auto, using(crate::proofs::RunLaws::page_asked, crate::proofs::RunLaws::fixed_asked, crate::proofs::RunLaws::release_asked, crate::proofs::RunLaws::run_asked, crate::proofs::RunLaws::append_asked, crate::proofs::RunLaws::stamp_asked, crate::proofs::StandingLaws::page_turn, crate::proofs::StandingLaws::fixed_turn, crate::proofs::StandingLaws::release_turn, crate::proofs::StandingLaws::run_turn, crate::proofs::StandingLaws::append_turn, crate::proofs::StandingLaws::stamp_turn))]
fn turn<W: Worker, P: StillPages>(
    alloc: Global,
    worker: &mut W,
    pages: &P,
    deed: Deed,
) -> Result<Act, WantOfMemory>
    requires does { Does W.terms (W.work worker.old) (act.Do deed) }
    requires plain { is_sure deed ≡ false }
    ensures turn { IfOk result (λ next. IsTurn W.terms W.undoes (deed_input (P.now pages.now) deed)
        (W.work worker.old) next (W.work worker.new)) }
{
    match deed {
        Deed::Fetch(fetch) => {
            let page = pages.fetch(alloc, fetch)?;
            worker.next(alloc, Given::Page(&page))
        }
        Deed::FetchFixed(place) => {
            let page = pages.fetch_fixed(alloc, place)?;
            worker.next(alloc, Given::Page(&page))
        }
        Deed::FetchSure(_fetch) => unreachable!(),
        Deed::Stamp => worker.next(alloc, Given::Stamp(pages.stamp())),
        Deed::Release(_page) => worker.next(alloc, Given::Ran),
        Deed::Run(_plan) => worker.next(alloc, Given::Ran),
        Deed::Append => worker.next(alloc, Given::Ran),
    }
}

/// Serves a statement that takes no page for more than it is to its end: each turn leaves one act less.
#[tactic(auto, using(crate::proofs::RunLaws::begins, crate::proofs::RunLaws::does, crate::proofs::StandingLaws::not_sure))]
pub fn serve_to_end<W: Worker, P: StillPages>(
    alloc: Global,
    worker: &mut W,
    pages: &P,
    job: Job,
) -> Result<SqlReply, WantOfMemory>
    requires plain { ClaimsNothing (W.serves job) }
    ensures { IfOk result (λ r. (xs : List Input)
        × IsReplyOver W.terms (W.serves job) (W.finds job) xs r) }
{
    let mut act = worker.next(alloc, Given::Start(job))?;
    loop {
        match act {
            Act::Reply(reply) => return Ok(reply),
            Act::Rest => unreachable!(),
            Act::Do(deed) => act = turn(alloc, worker, pages, deed)?,
        }
    }
}
