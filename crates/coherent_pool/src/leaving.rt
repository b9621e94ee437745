//! Copies that go, and pages that a node parts with.
ghost use Rattle.std.specs.Prelude.{◌≡◌, ◌<◌, ℕ, Bool, true, false, None, IfSome, IsNone};
ghost use Rattle.node_model.specs.Call.{Call, Call.AskUnregister};
ghost use Rattle.node_model.specs.Learning.{evicted, parted};

use crate::known::Known;
use crate::node::PoolNode;
use rm_base::PageId;

impl PoolNode {
    ghost use Rattle.coherent_pool.specs.Node.{state_at, node_at, is_busy, is_leaving_at, Changes, Others};
    ghost use Rattle.coherent_pool.specs.Keeping.{IsNode};
    ghost use Rattle.coherent_pool.specs.Changing.{with_copy, with_leaving, evicted_at, parted_at, HasFreeCopy};

    #[tactic(auto, using(crate::proofs::Copies::here_dropped, crate::proofs::Copies::beside_dropped))]
    fn drop_copy(&mut self, page: PageId)
        ensures { Changes page (with_copy (state_at self.old page) None) self.old self.new }
    {
        let _count = self.cache.len();
        self.cache.drop_page(page);
    }

    /// Drops the least recently used copy without a pin.
    fn drop_oldest(&mut self) -> Option<PageId>
        ensures dropped { IfSome result (λ p. Changes p (with_copy (state_at self.old p) None)
            self.old self.new) }
        ensures free { IfSome result (λ p. HasFreeCopy (state_at self.old p)) }
        ensures none { IsNone result → self.new ≡ self.old }
    {
        let _count = self.cache.len();
        let page = self.cache.evict()?;
        Some(page)
    }

    fn let_leave(&mut self, page: PageId)
        ensures { Changes page (evicted_at (state_at self.old page)) self.old self.new }
    {
        self.drop_copy(page);
        self.set_leaving(page, true);
    }

    /// The copy of a page that no fetch has is dropped, and the page is to be unregistered.
    pub fn evict(&mut self, page: PageId)
        requires rules { IsNode self.old }
        requires free { is_busy self.old page ≡ false }
        ensures here { (call : Call) → node_at self.new page call
            ≡ evicted (node_at self.old page call) }
        ensures others { Others page self.old self.new }
        ensures kept { IsNode self.new }
    {
        self.let_leave(page);
    }

    /// The least recently used copy without a fetch is dropped, and its page is to be unregistered.
    /// None where each copy has a fetch.
    pub fn evict_oldest(&mut self) -> Option<PageId>
        requires rules { IsNode self.old }
        ensures idle { IfSome result (λ p. is_busy self.old p ≡ false) }
        ensures here { IfSome result (λ p. (call : Call)
            → node_at self.new p call ≡ evicted (node_at self.old p call)) }
        ensures others { IfSome result (λ p. Others p self.old self.new) }
        ensures same { IsNone result → self.new ≡ self.old }
        ensures kept { IsNode self.new }
    {
        let page = self.drop_oldest()?;
        self.set_leaving(page, true);
        Some(page)
    }

    /// Whether the page is to be unregistered.
    pub fn is_leaving(&self, page: PageId) -> bool
        ensures { result ≡ is_leaving_at self.now page }
    {
        self.table.is_leaving(page)
    }

    /// The least page that is to be unregistered.
    pub fn first_leaving(&self) -> Option<PageId>
        ensures found { IfSome result (λ p. is_leaving_at self.now p ≡ true) }
        ensures least { IfSome result (λ p. (q : ℕ) → q < p → is_leaving_at self.now q ≡ false) }
        ensures none { IsNone result → (q : ℕ) → q < 32768 → is_leaving_at self.now q ≡ false }
    {
        self.table.first_leaving()
    }

    fn forget_page(&mut self, page: PageId)
        ensures { Changes page (parted_at (state_at self.old page)) self.old self.new }
    {
        self.set_known(page, Known::NOTHING);
        self.set_leaving(page, false);
    }

    /// The call that unregisters the page is sent: the node forgets the page.
    pub fn part(&mut self, page: PageId)
        requires rules { IsNode self.old }
        requires free { is_busy self.old page ≡ false }
        ensures here { (call : Call)
            → node_at self.new page AskUnregister ≡ parted (node_at self.old page call) }
        ensures others { Others page self.old self.new }
        ensures kept { IsNode self.new }
    {
        self.forget_page(page);
    }
}
