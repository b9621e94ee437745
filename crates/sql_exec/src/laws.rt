ghost use Rattle.sql_database.specs.Rules.{AnswerRules};
ghost use Rattle.sql_exec.specs.Whole.{AnswersOver, FilteredIsWithout, IsWhole, JoinedIsWithout, OutsideIsNeedless};
ghost use Rattle.sql_exec.specs.Extremes.{MaxIsGreatest, MinIsLeast};

/// An outcome over rows that lack only what the statement does not need is the answer over whole tables, and
/// an INSERT does not need the rows outside its ranges. Rows that were filtered, and pairs of such, lack only
/// what fails the filter. It does nothing when it is run.
#[tactic(auto, using(crate::proofs::WholeLaws::over_whole, crate::proofs::InsertLaws::outside_is_needless, crate::proofs::RangeLaws::filtered_is_without, crate::proofs::RangeLaws::joined_is_without))]
pub fn whole_laws()
    ensures whole { IsWhole }
    ensures inserts { OutsideIsNeedless }
    ensures filtered { FilteredIsWithout }
    ensures joined { JoinedIsWithout }
{}

/// MIN is NULL where all cells are NULL, and else the least of the cells that are not NULL: one of the cells,
/// with none that is not NULL below it. MAX is the same with the greatest. It does nothing when it is run.
#[tactic(auto, using(crate::proofs::TotalLaws::min_is_least, crate::proofs::TotalLaws::max_is_greatest))]
pub fn total_laws()
    ensures min { MinIsLeast }
    ensures max { MaxIsGreatest }
{}

/// A statement that is evaluated has one answer over a database: none refuses what is done or takes a
/// transaction along, databases with the same content answer the same, and changes that are wanted are a
/// write's and fit the tables. It does nothing when it is run.
#[tactic(auto, using(crate::proofs::AnswerLaws::rules))]
pub fn answer_laws()
    ensures { AnswerRules AnswersOver }
{}
