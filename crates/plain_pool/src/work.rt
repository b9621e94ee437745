//! What the node of a plain pool has under way.
ghost use Rattle.std.specs.Prelude.{◌≡◌, IfOk};
ghost use Rattle.std.specs.Option.{option_copied};
ghost use Rattle.page_pool.specs.Nodes.{is_busy, plan_of};
ghost use Rattle.plain_pool.specs.Acts.{plain_act};
ghost use Rattle.plain_pool.specs.Plain.{records_of};
ghost use Rattle.plain_pool.specs.Seen.{job_of, next_of};

use fetch_steps::Action;
use redo_record::{Plan, Records};
use rm_base::{Duplicate, Items, PageId, WantOfMemory};
use std::alloc::Global;

/// A fetch, a plan, or nothing.
#[derive(Drop)]
pub(crate) enum Work {
    Rest,
    Fetch(PageId),
    Run(Plan),
}

impl Work {
    /// A fetch is one look, and a plan is its install.
    pub(crate) fn next(&self) -> Option<Action>
        ensures { result ≡ next_of self.now }
    {
        match self {
            Work::Rest => None,
            Work::Fetch(page) => Some(Action::Look(*page)),
            Work::Run(_) => Some(Action::Install),
        }
    }

    pub(crate) fn is_busy(&self) -> bool
        ensures { result ≡ is_busy (job_of self.now) }
    {
        match self {
            Work::Rest => false,
            Work::Fetch(_) | Work::Run(_) => true,
        }
    }

    pub(crate) fn plan(&self) -> Option<&Plan>
        ensures { option_copied result ≡ plan_of (job_of self.now) }
    {
        match self {
            Work::Rest | Work::Fetch(_) => None,
            Work::Run(plan) => Some(plan),
        }
    }

    /// A copy of the plan's records.
    pub(crate) fn records(&self, alloc: Global) -> Result<Records, WantOfMemory>
        ensures { IfOk result (λ records. records ≡ records_of self.now) }
    {
        match self {
            Work::Rest | Work::Fetch(_) => Ok(Items::new(alloc)),
            Work::Run(plan) => plan.records.copy(alloc),
        }
    }
}

/// The acts that a plain pool asks for, or takes beside.
#[derive(Clone, Copy, Debug, PartialEq, Eq)]
pub(crate) enum PlainAct {
    Look(PageId),
    Install,
    Append,
    Release,
}

/// The act, where it is one of these.
pub(crate) fn plain_act(action: &Action) -> Option<PlainAct>
    ensures { result ≡ plain_act action.now }
{
    match action {
        Action::Look(page) => Some(PlainAct::Look(*page)),
        Action::Install => Some(PlainAct::Install),
        Action::Append => Some(PlainAct::Append),
        Action::Release(_) => Some(PlainAct::Release),
        _ => None,
    }
}
