//! The plain pool as a pool.
ghost use Rattle.std.specs.Prelude.{◌≡◌, Some, IfOk, OnErr, true, false};
ghost use Rattle.page_pool.specs.declared.events.PoolEvent.TheVariants.{Act};
ghost use Rattle.page_pool.specs.State.{MayAct};
ghost use Rattle.page_pool.specs.Steps.{Steps};
ghost use Rattle.plain_pool.specs.Seen.{state_of};

use crate::plain::PlainPool;
use crate::work::{PlainAct, plain_act};
use cluster_model::{Origin, Shape};
use fetch_steps::Action;
use page_image::Page;
use page_pool::{How, Obstacle, Outcome, PagePool, PoolAnswer, PoolEvent, can_end};
use redo_record::Plan;
use rm_base::{NodeId, PageId, WantOfMemory};
use std::alloc::Global;

impl PlainPool {
    /// Makes an act, which comes next or may be done beside.
    #[tactic(auto, using(crate::proofs::Moving::look_steps, crate::proofs::Moving::install_steps, crate::proofs::Moving::append_steps, crate::proofs::Moving::release_steps))]
    fn make(&mut self, alloc: Global, action: &Action) -> Result<PoolAnswer, WantOfMemory>
        requires may { MayAct (state_of self.old) 0 action.now }
        ensures steps { IfOk result (λ answer.
            Steps (Act 0 action.now How.Made) answer (state_of self.old) (state_of self.new)) }
        ensures err { OnErr result (self.new ≡ self.old) }
    {
        let Some(act) = plain_act(action) else {
            unreachable!()
        };
        match act {
            PlainAct::Look(page) => {
                self.look(alloc, page)?;
                Ok(PoolAnswer::Did(Outcome::Went))
            }
            PlainAct::Install => {
                let end = self.install(alloc)?;
                Ok(PoolAnswer::Did(Outcome::Installed(end)))
            }
            PlainAct::Append => {
                let tail = self.append();
                Ok(PoolAnswer::Did(Outcome::Kept(tail)))
            }
            PlainAct::Release => {
                self.release();
                Ok(PoolAnswer::Did(Outcome::Went))
            }
        }
    }

    /// An act that ends so.
    #[tactic(auto, using(crate::proofs::Moving::lost_steps, crate::proofs::Moving::cannot))]
    fn act(&mut self, alloc: Global, action: &Action, how: How) -> Result<PoolAnswer, WantOfMemory>
        requires may { MayAct (state_of self.old) 0 action.now }
        ensures steps { IfOk result (λ answer.
            Steps (Act 0 action.now how) answer (state_of self.old) (state_of self.new)) }
        ensures err { OnErr result (self.new ≡ self.old) }
    {
        if !can_end(action, how) {
            return Ok(PoolAnswer::Refused);
        }
        match how {
            How::Made => self.make(alloc, action),
            How::Lost | How::Unseen => Ok(PoolAnswer::Did(Outcome::Met(Obstacle::Lost))),
        }
    }
}

impl PagePool for PlainPool {
    ghost state = { state_of };

    ghost serves = { λ shape. shape.nodes ≡ 1 };

    #[tactic(auto, using(crate::proofs::Showing::begins))]
    fn new(alloc: Global, _shape: &Shape) -> Result<PlainPool, WantOfMemory> {
        let pool = PlainPool::begun(alloc)?;
        Ok(pool)
    }

    #[tactic(auto, using(crate::proofs::Showing::next_seen))]
    fn next(&self, _n: NodeId) -> Option<Action> {
        self.work.next()
    }

    #[tactic(auto, using(crate::proofs::Showing::waits_seen))]
    fn is_waiting(&self, _n: NodeId) -> bool {
        false
    }

    #[tactic(auto, using(crate::proofs::Showing::busy_seen))]
    fn is_busy(&self, _n: NodeId) -> bool {
        self.work.is_busy()
    }

    #[tactic(auto, using(crate::proofs::Showing::plan_seen))]
    fn plan(&self, _n: NodeId) -> Option<&Plan> {
        self.work.plan()
    }

    #[tactic(auto, using(crate::proofs::Showing::image_seen, crate::proofs::Showing::no_image))]
    fn image(&self, _n: NodeId, page: PageId) -> Option<&Page> {
        if !self.is_handed(page) {
            return None;
        }
        self.page(page)
    }

    #[tactic(auto, using(crate::proofs::Showing::origin_seen, crate::proofs::Showing::no_origin))]
    fn origin(&self, _n: NodeId, page: PageId) -> Option<Origin> {
        if !self.is_handed(page) {
            return None;
        }
        Some(Origin::Local)
    }

    fn can_append(&self, _n: NodeId) -> bool {
        self.has_unkept()
    }

    #[tactic(auto, using(crate::proofs::Showing::fetch_free, crate::proofs::Showing::fetch_taken))]
    fn fetch(&mut self, _n: NodeId, page: PageId) -> bool {
        if self.has_work() {
            return false;
        }
        self.begin_fetch(page);
        true
    }

    #[tactic(auto, using(crate::proofs::Showing::run_free, crate::proofs::Showing::run_taken, crate::proofs::Showing::runnable))]
    fn run(&mut self, _alloc: Global, _n: NodeId, plan: Plan) -> Result<bool, WantOfMemory> {
        if self.has_work() {
            return Ok(false);
        }
        self.begin_plan(plan);
        Ok(true)
    }

    #[tactic(auto, using(crate::proofs::Showing::gives_up))]
    fn give_up(&mut self, _n: NodeId) {
        self.rest();
    }

    fn admits(&self, event: &PoolEvent) -> bool {
        match event {
            PoolEvent::Act(_, action, how) => can_end(action, *how),
            _ => false,
        }
    }

    fn step(&mut self, alloc: Global, event: &PoolEvent) -> Result<PoolAnswer, WantOfMemory> {
        match event {
            PoolEvent::Act(_, action, how) => self.act(alloc, action, *how),
            _ => Ok(PoolAnswer::Refused),
        }
    }
}
