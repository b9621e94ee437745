ghost use Rattle.std.specs.Prelude.{◌≡◌, List, None};
ghost use Rattle.sql_values.specs.declared.schemas.Schema.{Schema};
ghost use Rattle.sql_statements.specs.declared.statements.Stmt.{Stmt};
ghost use Rattle.sql_meaning.specs.Refusals.{refusal};
ghost use Rattle.sql_plan.specs.Needed.{LeavesOutNone};

/// A row outside a statement's ranges does not pass its test, and its test does not overflow. It does
/// nothing when it is run.
#[tactic(auto, using(crate::proofs::Needed::leaves_out_none))]
pub fn plan_laws()
    ensures none_left_out { (schemas : List Schema) (s : Stmt) → refusal schemas s ≡ None → LeavesOutNone schemas s }
{}
