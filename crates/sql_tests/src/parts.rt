//! The parts of a statement that say what it is run on.
ghost use Rattle.std.specs.Prelude.{IsTrue};
ghost use Rattle.sql_database.specs.Statements.{IsEvaluated};

use rm_base::Name;
use sql_statements::{Join, Stmt};
use sql_values::Schema;

/// Whether it is no BEGIN, COMMIT or ROLLBACK.
pub(crate) fn is_evaluated(statement: &Stmt) -> bool
    ensures { IsTrue result → IsEvaluated statement.now }
{
    match statement {
        Stmt::Begin | Stmt::Commit | Stmt::Rollback => false,
        _ => true,
    }
}

/// The table that it makes.
pub(crate) fn made(statement: &Stmt) -> Option<&Schema> {
    match statement {
        Stmt::Create { schema } => Some(schema),
        _ => None,
    }
}

/// Its only or left table, where it reads one.
pub(crate) fn left(statement: &Stmt) -> Option<&Name> {
    match statement {
        Stmt::Insert { table, .. } => Some(table),
        Stmt::Update { table, .. } => Some(table),
        Stmt::Delete { table, .. } => Some(table),
        Stmt::Select(select) => Some(&select.left),
        _ => None,
    }
}

/// The right table of a join.
pub(crate) fn right(statement: &Stmt) -> Option<&Name> {
    match statement {
        Stmt::Select(select) => joined(&select.join),
        _ => None,
    }
}

fn joined(join: &Option<Join>) -> Option<&Name> {
    match join {
        Some(join) => Some(&join.right),
        None => None,
    }
}
