//! A node goes down, and comes back.
ghost use Rattle.std.specs.Prelude.{◌≡◌, ℕ, true, false};
ghost use Rattle.node_model.specs.Call.{Call};
ghost use Rattle.node_model.specs.Node.{blank};

use crate::node::PoolNode;

impl PoolNode {
    ghost use Rattle.coherent_pool.specs.Node.{state_at, node_at, no_state, is_up, is_writer};
    ghost use Rattle.coherent_pool.specs.Keeping.{IsNode};

    fn forget_all(&mut self)
        ensures state { (p : ℕ) → state_at self.new p ≡ no_state }
        ensures writer { is_writer self.new ≡ is_writer self.old }
    {
        self.table.clear();
        self.cache.clear();
        self.works.clear();
    }

    /// The node goes down: it loses all that it keeps.
    pub fn crash(&mut self)
        ensures node { (p : ℕ) (call : Call) → node_at self.new p call ≡ blank false call }
        ensures kept { IsNode self.new }
    {
        self.forget_all();
        self.up = false;
    }

    /// The node comes back, as the RW or not, and knows of no page.
    pub fn restart(&mut self, writer: bool)
        ensures node { (p : ℕ) (call : Call) → node_at self.new p call ≡ blank true call }
        ensures kind { is_writer self.new ≡ writer }
        ensures kept { IsNode self.new }
    {
        self.forget_all();
        self.up = true;
        self.writer = writer;
    }
}
