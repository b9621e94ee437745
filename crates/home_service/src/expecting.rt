ghost use Rattle.std.specs.Prelude.{◌≡◌, ◌<◌, ◌||◌, ◌&&◌, ℕ, true, false, [], length, slice_index_or, not, if◌then◌else◌};
ghost use Rattle.home_model.specs.Numbered.{put};
ghost use Rattle.page_latches.specs.Set.{has};
ghost use Rattle.home_service.specs.Joining.{is_done};
ghost use Rattle.home_service.specs.Keeping.{Includes};

use message_network::Reply;
use page_latches::NodeSet;
use rm_base::NodeId;

/// Puts the node in where it is wanted.
fn insert_where(nodes: &mut NodeSet, node: NodeId, wanted: bool)
    ensures { has nodes.new ≡ (if wanted then put (has nodes.old) node true else has nodes.old) }
{
    if wanted {
        nodes.insert(node);
    }
}

/// The nodes that are in both sets.
pub(crate) fn both(one: &NodeSet, other: &NodeSet) -> NodeSet
    ensures { (n : ℕ) → has result n ≡ (has one.now n && has other.now n) }
{
    let mut nodes = NodeSet::new();
    for node in one.as_slice() {
        insert_where(&mut nodes, *node, other.contains(*node));
    }
    nodes
}

/// Takes the nodes of the other set out.
pub(crate) fn take_out(nodes: &mut NodeSet, others: &NodeSet)
    ensures { (n : ℕ) → has nodes.new n ≡ (has nodes.old n && not (has others.now n)) }
{
    for node in others.as_slice() {
        nodes.remove(*node);
    }
}

/// Puts the nodes of the other set in.
fn join(nodes: &mut NodeSet, others: &NodeSet)
    ensures { (n : ℕ) → has nodes.new n ≡ (has nodes.old n || has others.now n) }
{
    for node in others.as_slice() {
        nodes.insert(*node);
    }
}

/// Puts the nodes of each set in.
fn join_all(nodes: &mut NodeSet, sets: &[NodeSet])
    ensures old { Includes nodes.new nodes.old }
    ensures each { (i : ℕ) → i < length sets.now → Includes nodes.new (slice_index_or sets.now i []) }
{
    for set in sets {
        join(nodes, set);
    }
}

/// Puts the nodes in at which a page may be due after an `invalidate`: those that stand beside its
/// pages, and none where nobody is due.
pub(crate) fn expect(nodes: &mut NodeSet, reply: &Reply, clear: &[NodeSet])
    ensures old { Includes nodes.new nodes.old }
    ensures each { is_done reply.now ≡ false → (i : ℕ) → i < length clear.now
        → Includes nodes.new (slice_index_or clear.now i []) }
{
    match reply {
        Reply::Done => {}
        _ => join_all(nodes, clear),
    }
}
