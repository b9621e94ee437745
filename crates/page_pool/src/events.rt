//! What can happen to a pool.
ghost use Rattle.std.specs.Prelude.{◌≡◌};
ghost use Rattle.page_pool.specs.Events.{is_access, can_end};

use fetch_steps::Action;
use rm_base::{MsgNo, NodeId, PageId};

/// How an act ends.
#[derive(Clone, Copy, Debug, PartialEq, Eq)]
pub enum How {
    /// It is made, and the node learns what came of it.
    Made,
    /// It is not made, and the node does not learn of that.
    Lost,
    /// It is made, and the node does not learn of that.
    Unseen,
}

/// What can happen to a pool, one thing at a time.
#[derive(Debug, Drop)]
pub enum PoolEvent {
    /// A node does an act.
    Act(NodeId, Action, How),
    /// A message that was sent arrives, for the first time or again.
    Deliver(MsgNo),
    /// The home tells one node that its copy of a page is old.
    Home,
    /// A page chunk gets the next group of the log.
    Ship(u8),
    /// Storage merges a page's records into its image.
    Fold(PageId),
    /// A node drops its copy of a page.
    Evict(NodeId, PageId),
}

/// Whether the act is an access to the home's tables or to a slab, which no other part takes part in.
fn is_access(action: &Action) -> bool
    ensures { result ≡ is_access action.now }
{
    match action {
        Action::Latch(_, _) | Action::Release(_) | Action::Look(_) => true,
        Action::Read(_, _) | Action::Write(_, _) | Action::Clean(_, _) => true,
        _ => false,
    }
}

/// Whether the act can end so: only an access can be lost or unseen.
pub fn can_end(action: &Action, how: How) -> bool
    ensures { result ≡ can_end action.now how }
{
    match how {
        How::Made => true,
        How::Lost | How::Unseen => is_access(action),
    }
}
