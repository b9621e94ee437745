//! What each pool promises.
ghost use Rattle.std.specs.Prelude.{◌≡◌, ◌<◌, ◌↔◌, Some, IfOk, IsTrue, OnErr, true, false};
ghost use Rattle.std.specs.Option.{option_copied, option_map};
ghost use Rattle.cluster_model.specs.declared.shape.Shape.{Shape};
ghost use Rattle.page_pool.specs.Nodes.{is_able, is_busy, plan_of, is_installed};
ghost use Rattle.page_pool.specs.State.{PoolState, Begins, admits, IsBeside, Suits};
ghost use Rattle.page_pool.specs.Calls.{IsRunnable, IfFree, BeginsFetch, BeginsPlan, GivesUp};
ghost use Rattle.page_pool.specs.Steps.{Steps};

use crate::answers::PoolAnswer;
use crate::events::PoolEvent;
use cluster_model::{Origin, Shape};
use fetch_steps::Action;
use page_image::Page;
use redo_record::Plan;
use rm_base::{NodeId, PageId, WantOfMemory};
use std::alloc::Global;

/// Hands pages to the nodes of a cluster and carries the changes of the read-write node to its log and to
/// storage. Each node has at most one fetch or plan under way, which goes on one act at a time.
pub trait PagePool: Drop {
    /// What its callers know of it.
    ghost state: { Self → PoolState };

    /// The shapes of the clusters that it serves.
    ghost serves: { Shape → Type 0 };

    /// The pool of a cluster that begins.
    fn new(alloc: Global, shape: &Shape) -> Result<Self, WantOfMemory>
        requires serves { serves shape.now }
        ensures begins { IfOk result (λ pool. Begins shape.now (state pool)) };

    /// The node's next act. None where it has nothing to do, or waits for an answer.
    fn next(&self, n: NodeId) -> Option<Action>
        requires there { n < (state self.now).nodes }
        ensures act { result ≡ ((state self.now).node n).next };

    /// Whether the node's next act must wait for the answer to a call.
    fn is_waiting(&self, n: NodeId) -> bool
        requires there { n < (state self.now).nodes }
        ensures waits { result ≡ ((state self.now).node n).waits };

    /// Whether the node has a fetch or plan under way, or one that it gave up.
    fn is_busy(&self, n: NodeId) -> bool
        requires there { n < (state self.now).nodes }
        ensures busy { result ≡ is_busy ((state self.now).node n).job };

    /// The plan that the node has under way.
    fn plan(&self, n: NodeId) -> Option<&Plan>
        requires there { n < (state self.now).nodes }
        ensures plan { option_copied result ≡ plan_of ((state self.now).node n).job };

    /// The page that a fetch of the node handed out. None where none was, or it was let go.
    fn image(&self, n: NodeId, page: PageId) -> Option<&Page>
        requires there { n < (state self.now).nodes }
        ensures image { option_copied result
            ≡ option_map (λ handed. handed.image) (((state self.now).node n).handed page) };

    /// Where the node had that page from.
    fn origin(&self, n: NodeId, page: PageId) -> Option<Origin>
        requires there { n < (state self.now).nodes }
        ensures origin { result
            ≡ option_map (λ handed. handed.origin) (((state self.now).node n).handed page) };

    /// Whether the node may append: it is the one that writes, its buffer is not empty, no append is
    /// unanswered, and it waits for nothing.
    fn can_append(&self, n: NodeId) -> bool
        requires there { n < (state self.now).nodes }
        ensures appends { IsTrue result ↔ IsBeside (state self.now) n Action.Append };

    /// Begins a fetch of the page. False exactly where something is under way.
    fn fetch(&mut self, n: NodeId, page: PageId) -> bool
        requires there { n < (state self.old).nodes }
        requires able { is_able ((state self.old).node n) ≡ true }
        ensures begins { IfFree ((state self.old).node n).job result
            (BeginsFetch n page (state self.old) (state self.new)) (state self.new ≡ state self.old) };

    /// Begins a plan of the read-write node. False exactly where something is under way.
    fn run(&mut self, alloc: Global, n: NodeId, plan: Plan) -> Result<bool, WantOfMemory>
        requires there { n < (state self.old).nodes }
        requires able { is_able ((state self.old).node n) ≡ true }
        requires writes { (state self.old).rw ≡ Some n }
        requires runnable { IsRunnable (state self.old).log.made plan }
        ensures begins { IfOk result (λ begun. IfFree ((state self.old).node n).job begun
            (BeginsPlan n plan (state self.old) (state self.new)) (state self.new ≡ state self.old)) }
        ensures err { OnErr result (state self.new ≡ state self.old) };

    /// Gives up what the node has under way, and lets go what was handed out to it. A plan whose group is
    /// installed is carried to its end.
    fn give_up(&mut self, n: NodeId)
        requires there { n < (state self.old).nodes }
        requires able { is_able ((state self.old).node n) ≡ true }
        requires uninstalled { is_installed ((state self.old).node n).job ≡ false }
        ensures gives_up { GivesUp n (state self.old) (state self.new) };

    /// Whether the event's condition holds.
    fn admits(&self, event: &PoolEvent) -> bool
        requires suits { Suits (state self.now) event.now }
        ensures admits { result ≡ admits (state self.now) event.now };

    /// What an event does. It is refused exactly where its condition does not hold.
    fn step(&mut self, alloc: Global, event: &PoolEvent) -> Result<PoolAnswer, WantOfMemory>
        requires suits { Suits (state self.old) event.now }
        ensures steps { IfOk result (λ answer. Steps event.now answer (state self.old) (state self.new)) }
        ensures err { OnErr result (state self.new ≡ state self.old) };
}
