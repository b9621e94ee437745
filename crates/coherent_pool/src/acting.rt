//! The act that a node's fetch asks for next.
ghost use Rattle.std.specs.Prelude.{◌≡◌};
ghost use Rattle.fetch_steps.specs.Acts.{act_of};
ghost use Rattle.coherent_pool.specs.Acting.{act_of_work, HasOwnImage};

use crate::node::PoolNode;
use crate::works::{FetchWork, Stage};
use fetch_steps::Action;
use page_latches::Mode;
use rm_base::PageId;

fn act_of(work: &FetchWork) -> Action
    requires { HasOwnImage work.now }
    ensures { result ≡ act_of_work work.now }
{
    match work.stage {
        Stage::Fetching => work.step.next(),
        Stage::Releasing | Stage::Freeing => Action::Release(work.step.page()),
        Stage::Latching => Action::Latch(work.step.page(), Mode::X),
        Stage::Entering => Action::Register(work.step.page()),
        _ => Action::Finished,
    }
}

impl PoolNode {
    ghost use Rattle.coherent_pool.specs.Node.{address_at, step_at_page};
    ghost use Rattle.coherent_pool.specs.Keeping.{IsNode};

    /// The act of the page's fetch that is next, or of a page of a plan where it is an act of that
    /// page alone and not of its copy, after the answer to a call that is unanswered.
    pub fn next(&self, page: PageId) -> Action
        requires { IsNode self.now }
        ensures { result ≡ act_of page (address_at self.now page) (step_at_page self.now page) }
    {
        match self.works.get(page) {
            Some(work) => act_of(work),
            None => Action::Finished,
        }
    }
}
