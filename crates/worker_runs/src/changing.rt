//! Turns over pages that change.
ghost use Rattle.std.specs.Prelude.{◌≡◌, ◌++◌, [], ◌∷◌, List, option_to_list, IsSome, IfOk, IfSome, OnOk};
ghost use Rattle.page_image.specs.Image.{Image};
ghost use Rattle.question_tree.specs.Questions.{wanted};
ghost use Rattle.range_reader.specs.Finding.{Fits};
ghost use Rattle.statement_work.specs.Works.{Input, IsFixed, uses};
ghost use Rattle.statement_work.specs.Acting.{Does};
ghost use Rattle.statement_work.specs.declared.acts.Act.TheVariants as act;
ghost use Rattle.statement_work.specs.declared.acts.Deed.TheVariants as deed;
ghost use Rattle.worker_runs.specs.Runs.{IsAnswered, IsAskedFor, IsTold, IsTurnOver};

use page_image::Page;
use range_reader::Fetch;
use redo_record::Plan;
use rm_base::{PageId, Stamp, WantOfMemory};
use sql_database::SqlReply;
use statement_work::{Act, Deed, FixedPage, Given, Job, Obstacle, Worker};
use std::alloc::Global;

/// Where pages come from. What a page holds may change from one call to the next, so a page that has to be what
/// a work takes it for is never had from it.
pub trait Pool {
    /// The images that were handed out, in their order.
    ghost handed: { Self → List Image };

    /// The page as it stands now. None where the try was lost.
    fn fetch(&mut self, alloc: Global, fetch: Fetch) -> Result<Option<Page>, WantOfMemory>
        ensures fits { IfOk result (λ o. IfSome o (Fits fetch)) }
        ensures handed { IfOk result (λ o. handed self.new ≡ handed self.old ++ option_to_list o) };

    fn fetch_fixed(&mut self, alloc: Global, place: FixedPage) -> Result<Option<Page>, WantOfMemory>
        ensures fits { IfOk result (λ o. IfSome o (IsFixed place)) }
        ensures handed { IfOk result (λ o. handed self.new ≡ handed self.old ++ option_to_list o) };

    fn release(&mut self, page: PageId)
        ensures { handed self.new ≡ handed self.old };

    fn run(&mut self, alloc: Global, plan: Plan) -> Result<(), WantOfMemory>
        ensures { OnOk result (handed self.new ≡ handed self.old) };

    fn stamp(&mut self) -> Stamp
        ensures { handed self.new ≡ handed self.old };

    fn append(&mut self, alloc: Global) -> Result<(), WantOfMemory>
        ensures { OnOk result (handed self.new ≡ handed self.old) };
}

/// The worker is told of a page that was handed out, or that the try was lost.
fn tell<W: Worker>(alloc: Global, worker: &mut W, page: Option<Page>) -> Result<Act, WantOfMemory>
    requires asks { IsSome (wanted (W.work worker.old)) }
    requires asked { IfSome page (IsAskedFor (W.work worker.old)) }
    ensures { IfOk result (λ next. IsTold W.terms W.undoes (W.work worker.old) page next
        (W.work worker.new)) }
{
    match page {
        Some(page) => worker.next(alloc, Given::Page(&page)),
        None => worker.next(alloc, Given::Met(Obstacle::Lost)),
    }
}

#[tactic(auto, using(crate::proofs::RunLaws::wants, crate::proofs::RunLaws::fixed_pages_asked))]
fn fixed_turn<W: Worker, P: Pool>(
    alloc: Global,
    worker: &mut W,
    pool: &mut P,
    place: FixedPage,
) -> Result<Act, WantOfMemory>
    requires does { Does W.terms (W.work worker.old) (act.Do (deed.FetchFixed place)) }
    ensures turn { IfOk result (λ next. IsTurnOver W.terms W.undoes (W.work worker.old)
        (P.handed pool.old) next (W.work worker.new) (P.handed pool.new)) }
{
    let page = pool.fetch_fixed(alloc, place)?;
    tell(alloc, worker, page)
}

/// One turn: the act is made, and the worker is told of it.
#[tactic(auto, using(crate::proofs::RunLaws::wants, crate::proofs::RunLaws::pages_asked, crate::proofs::RunLaws::release_asked, crate::proofs::RunLaws::run_asked, crate::proofs::RunLaws::append_asked, crate::proofs::RunLaws::stamp_asked, crate::proofs::RunLaws::told_turn, crate::proofs::RunLaws::release_turn, crate::proofs::RunLaws::run_turn, crate::proofs::RunLaws::append_turn, crate::proofs::RunLaws::stamp_turn))]
fn turn<W: Worker, P: Pool>(
    alloc: Global,
    worker: &mut W,
    pool: &mut P,
    deed: Deed,
) -> Result<Act, WantOfMemory>
    requires does { Does W.terms (W.work worker.old) (act.Do deed) }
    ensures turn { IfOk result (λ next. IsTurnOver W.terms W.undoes (W.work worker.old)
        (P.handed pool.old) next (W.work worker.new) (P.handed pool.new)) }
{
    match deed {
        Deed::Fetch(fetch) => {
            let page = pool.fetch(alloc, fetch)?;
            tell(alloc, worker, page)
        }
        Deed::FetchFixed(place) => fixed_turn(alloc, worker, pool, place),
        Deed::FetchSure(_) => tell(alloc, worker, None),
        Deed::Release(page) => {
            pool.release(page);
            worker.next(alloc, Given::Ran)
        }
        Deed::Run(plan) => {
            pool.run(alloc, plan)?;
            worker.next(alloc, Given::Ran)
        }
        Deed::Stamp => {
            let stamp = pool.stamp();
            worker.next(alloc, Given::Stamp(stamp))
        }
        Deed::Append => {
            pool.append(alloc)?;
            worker.next(alloc, Given::Ran)
        }
    }
}

/// Serves a statement for so many turns. Whatever pages are handed out, a reply is the statement's over just
/// these, in their order. None where the turns are over before.
#[tactic(auto, using(crate::proofs::RunLaws::over_begins, crate::proofs::RunLaws::over_does))]
pub fn serve<W: Worker, P: Pool>(
    alloc: Global,
    worker: &mut W,
    pool: &mut P,
    job: Job,
    turns: u32,
) -> Result<Option<SqlReply>, WantOfMemory>
    ensures { IfOk result (λ o. IfSome o (IsAnswered W.terms (W.serves job) (W.finds job)
        (P.handed pool.old) (P.handed pool.new))) }
{
    let mut act = worker.next(alloc, Given::Start(job))?;
    for _ in 0..turns {
        match act {
            Act::Reply(reply) => return Ok(Some(reply)),
            Act::Rest => return Ok(None),
            Act::Do(deed) => act = turn(alloc, worker, pool, deed)?,
        }
    }
    Ok(None)
}
