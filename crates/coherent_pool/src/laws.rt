ghost use Rattle.std.specs.Prelude.{ℕ};
ghost use Rattle.page_image.specs.Image.{Image};
ghost use Rattle.node_model.specs.Node.{Node};
ghost use Rattle.page_coherence.specs.Page.{Page};
ghost use Rattle.coherent_pool.specs.Moved.{LatchesMove, LooksMove, SlotsMove, LossesMove};
ghost use Rattle.coherent_pool.specs.PlanMoved.{PlansMove};
ghost use Rattle.node_model.specs.Call.{Call};
ghost use Rattle.coherent_pool.specs.declared.node.PoolNode.{PoolNode};
ghost use Rattle.home_tables.specs.Home.{HomeState};
ghost use Rattle.coherent_pool.specs.Joined.{NodeChanges, HomeChanges};
ghost use Rattle.coherent_pool.specs.Handling.{HomeAnswers};
ghost use Rattle.coherent_pool.specs.Laws.{HearsLatches, HearsHome, HearsSlabs};

/// What a node hears of an access is what the law of pages has it learn. It does nothing when it is
/// run.
#[tactic(auto, using(crate::proofs::Lawful::latches, crate::proofs::Lawful::homes, crate::proofs::Lawful::slabs))]
pub fn hearing_laws()
    ensures latches { (r n : ℕ) (v : Image) (N : Node) → HearsLatches r n v N }
    ensures home { (r n : ℕ) (v : Image) (N : Node) → HearsHome r n v N }
    ensures slabs { (r n : ℕ) (v : Image) (N : Node) → HearsSlabs r n v N }
{}

/// What a node hears of an access is a move of the law of pages at that page. It does nothing when
/// it is run.
#[tactic(auto, using(crate::proofs::Moving::latches_move, crate::proofs::Moving::looks_move, crate::proofs::Moving::slots_move, crate::proofs::Moving::losses_move))]
pub fn move_laws()
    ensures latches { (r w n : ℕ) (v : Image) (P : Page) → LatchesMove r w n v P }
    ensures looks { (r w n : ℕ) (v : Image) (P : Page) → LooksMove r w n v P }
    ensures slots { (r w n : ℕ) (P : Page) → SlotsMove r w n P }
    ensures losses { (r w n : ℕ) (v : Image) (P : Page) → LossesMove r w n v P }
{}

/// What a node makes of a page of a plan is a move of the law of pages at that page. It does nothing
/// when it is run.
#[tactic(auto, using(crate::proofs::PlanMoving::plans_move))]
pub fn plan_move_laws()
    ensures { (r w n : ℕ) (P : Page) → PlansMove r w n P }
{}

/// A change of one node at one page is a change of one part of one page. It does nothing when it is
/// run.
#[tactic(auto, using(crate::proofs::Joining::node_changes))]
pub fn node_change_laws()
    ensures { (n p : ℕ) (before now : PoolNode) (calls : ℕ → Call) (pages : ℕ → Page) (X : Node)
        → NodeChanges n p before now calls pages X }
{}

/// A change of one entry of the home is a change of one part of one page, and of the call of the
/// node that asked. It does nothing when it is run.
#[tactic(auto, using(crate::proofs::Entries::home_answers))]
pub fn home_change_laws()
    ensures changes { (n p : ℕ) (before now : HomeState) (pages : ℕ → Page) (Q : Page)
        → HomeChanges n p before now pages Q }

    // Each call that the home handles about a page is such a change.
    ensures answers { (n : ℕ) (P : Page) → HomeAnswers n P }
{}
