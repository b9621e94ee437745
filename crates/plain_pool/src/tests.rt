ghost use Rattle.std.specs.Prelude.{◌≡◌, ◌∷◌, [], IfOk};
ghost use Rattle.page_image.specs.declared.kind.Kind.TheVariants.{Leaf};
ghost use Rattle.redo_record.specs.declared.redo.Record.TheVariants.{Make};
ghost use Rattle.plain_pool.specs.Plain.{begun};

use crate::PlainPool;
use cluster_model::Origin;
use fetch_steps::Action;
use page_image::Kind;
use page_pool::{How, Outcome, PagePool, PoolAnswer, PoolEvent};
use redo_record::{Plan, PlanKind, Record, Records};
use rm_base::{NodeId, PageId, PageList, WantOfMemory};
use std::alloc::Global;
use std::test::Fail;

/// The one node.
fn node() -> NodeId
    ensures { result ≡ 0 }
{
    NodeId::new(0).unwrap()
}

fn leaf_page() -> PageId
    ensures { result ≡ 1028 }
{
    PageId::new(1028).unwrap()
}

fn leaf_pages() -> PageList
    ensures { result ≡ 1028 ∷ [] }
{
    let mut pages = PageList::new();
    let _ = pages.try_push(leaf_page());
    pages
}

/// The records that make page 1028 a leaf.
fn leaf_records(alloc: Global) -> Result<Records, WantOfMemory>
    ensures { IfOk result (λ records. records ≡ Make 1028 Leaf 0 ∷ []) }
{
    let mut records = Records::new(alloc);
    records.push(Record::Make {
        page: leaf_page(),
        kind: Kind::Leaf,
        level: 0,
    })?;
    Ok(records)
}

/// Begins a plan that makes page 1028 a leaf.
#[tactic(auto, using(crate::proofs::Showing::zero_there, crate::proofs::Showing::zero_able, crate::proofs::Showing::zero_writes))]
fn run_leaf(alloc: Global, pool: &mut PlainPool) -> Result<bool, WantOfMemory>
    requires { pool.old ≡ begun }
{
    let records = leaf_records(alloc)?;
    let plan = Plan {
        kind: PlanKind::Change,
        pages: leaf_pages(),
        made: leaf_pages(),
        records,
    };
    pool.run(alloc, node(), plan)
}

/// Begins a fetch of page 1028.
#[tactic(auto, using(crate::proofs::Showing::zero_there, crate::proofs::Showing::zero_able))]
fn fetch_leaf(pool: &mut PlainPool) -> bool {
    pool.fetch(node(), leaf_page())
}

/// The node's next act, which ends so.
#[tactic(auto, using(crate::proofs::Showing::zero_there, crate::proofs::Showing::suits_next))]
fn turn(alloc: Global, pool: &mut PlainPool, how: How) -> Result<Option<PoolAnswer>, WantOfMemory> {
    let n = node();
    let Some(action) = pool.next(n) else {
        return Ok(None);
    };
    let answer = pool.step(alloc, &PoolEvent::Act(n, action, how))?;
    Ok(Some(answer))
}

/// Appends, where a group is not kept. Answers up to where the log is kept then.
#[tactic(auto, using(crate::proofs::Showing::zero_there, crate::proofs::Showing::suits_append))]
fn append(alloc: Global, pool: &mut PlainPool) -> Result<Option<u64>, WantOfMemory> {
    let n = node();
    if !pool.can_append(n) {
        return Ok(None);
    }
    let answer = pool.step(alloc, &PoolEvent::Act(n, Action::Append, How::Made))?;
    Ok(answer.kept())
}

/// The LSN of page 1028, where it is handed out.
#[tactic(auto, using(crate::proofs::Showing::zero_there))]
fn lsn_of_leaf(pool: &PlainPool) -> Option<u64> {
    let page = pool.image(node(), leaf_page())?;
    Some(page.lsn().number())
}

#[tactic(auto, using(crate::proofs::Showing::zero_there))]
fn origin_of_leaf(pool: &PlainPool) -> Option<Origin> {
    pool.origin(node(), leaf_page())
}

/// A pool whose node runs that plan.
fn running(alloc: Global) -> Result<PlainPool, WantOfMemory> {
    let mut pool = PlainPool::begun(alloc)?;
    let _ = run_leaf(alloc, &mut pool)?;
    Ok(pool)
}

#[test]
fn a_plan_is_installed_and_then_kept(rt: HostRuntime) -> Result<(), Fail> {
    let alloc = rt.alloc();
    let mut pool = running(alloc)?;
    let lost = turn(alloc, &mut pool, How::Lost)?;
    assert!(rt; matches!(lost, Some(PoolAnswer::Refused)));
    assert_eq!(rt; append(alloc, &mut pool)?, None);
    let installed = turn(alloc, &mut pool, How::Made)?;
    assert!(rt; matches!(installed, Some(PoolAnswer::Did(Outcome::Installed(100)))));
    assert_eq!(rt; append(alloc, &mut pool)?, Some(100));
    assert_eq!(rt; append(alloc, &mut pool)?, None);
    Ok(())
}

#[test]
fn a_fetch_is_one_look(rt: HostRuntime) -> Result<(), Fail> {
    let alloc = rt.alloc();
    let mut pool = PlainPool::begun(alloc)?;
    assert!(rt; fetch_leaf(&mut pool));
    assert!(rt; !fetch_leaf(&mut pool), "one is under way");
    let lost = turn(alloc, &mut pool, How::Lost)?;
    assert!(rt; matches!(lost, Some(PoolAnswer::Did(Outcome::Met(_)))));
    assert_eq!(rt; lsn_of_leaf(&pool), None);
    let looked = turn(alloc, &mut pool, How::Made)?;
    assert!(rt; matches!(looked, Some(PoolAnswer::Did(Outcome::Went))));
    assert_eq!(rt; lsn_of_leaf(&pool), Some(0), "the page is not made");
    assert_eq!(rt; origin_of_leaf(&pool), Some(Origin::Local));
    Ok(())
}

#[test]
fn a_fetch_hands_out_what_was_installed(rt: HostRuntime) -> Result<(), Fail> {
    let alloc = rt.alloc();
    let mut pool = running(alloc)?;
    let _ = turn(alloc, &mut pool, How::Made)?;
    assert!(rt; fetch_leaf(&mut pool));
    let _ = turn(alloc, &mut pool, How::Made)?;
    assert_eq!(rt; lsn_of_leaf(&pool), Some(2));
    Ok(())
}
