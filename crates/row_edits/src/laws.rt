//! Laws of a row's change and of the undo of one.
ghost use Rattle.row_edits.specs.Laws.{ChangesOnce, FoundInTree, UndoesOnce};

/// On every way through, a row's change is made by one plan, which stands on exactly the pages that were
/// given, behind splits for its own item, or SpaceFull is told where a page is needed and none is left;
/// and an undo is made by one plan of what its undo item says. What a leaf has for a key, which an undo
/// item keeps, is what its tree has. It does nothing when it is run.
#[tactic(auto, using(crate::proofs::OnceLaws::changes_once, crate::proofs::OnceLaws::undoes_once, crate::proofs::TreeLaws::found_in_tree))]
pub fn edit_laws()
    ensures changes { ChangesOnce }
    ensures undoes { UndoesOnce }
    ensures found { FoundInTree }
{}
