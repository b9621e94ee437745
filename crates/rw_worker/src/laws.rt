//! Laws of a statement's changes and of an undoing.
ghost use Rattle.rw_worker.specs.Backs.{UndoesAreSilent, UndoesInOrder};
ghost use Rattle.rw_worker.specs.Example.{ExampleEdits};
ghost use Rattle.rw_worker.specs.Orders.{WritesAreSilent, WritesEnd, WritesInOrder};

/// On every way through, whatever pages are handed out, a transaction without a number begins first; then each
/// change is made in its order by one plan, behind splits for its own item; then the transaction commits and the log
/// is appended, unless it lasts; and then Ok is replied. It does nothing when it is run.
#[tactic(auto, using(crate::proofs::OrderLaws::writes_in_order, crate::proofs::OrderLaws::writes_end, crate::proofs::OrderLaws::writes_are_silent))]
pub fn write_laws()
    ensures order { WritesInOrder }
    ensures ends { WritesEnd }
    ensures silent { WritesAreSilent }
{}

/// On every way through, whatever pages are handed out, the last change of the session's slot is undone first, then
/// the one that its undo item names, and so on; behind the first change the slot becomes free, and then the undoing
/// rests. It does nothing when it is run.
#[tactic(auto, using(crate::proofs::BackLaws::undoes_in_order, crate::proofs::BackLaws::undoes_are_silent))]
pub fn undo_laws()
    ensures order { UndoesInOrder }
    ensures silent { UndoesAreSilent }
{}

/// How the changes of a statement, and an undoing, begin and end. It does nothing when it is run.
#[tactic(auto, using(crate::proofs::ExampleLaws::example))]
pub fn example_laws()
    ensures { ExampleEdits }
{}
