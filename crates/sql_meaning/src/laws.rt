ghost use Rattle.sql_meaning.specs.Sorts.{SuitsMeansFits};

/// Where an expression suits a column, each value that it gives fits the column. It does nothing when it
/// is run.
#[tactic(auto, using(crate::proofs::SortLaws::suits_means_fits))]
pub fn sort_laws()
    ensures { SuitsMeansFits }
{}
