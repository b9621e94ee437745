//! What a node that only reads does with a statement.
ghost use Rattle.std.specs.Prelude.{◌≡◌};
ghost use Rattle.ro_worker.specs.Kinds as spec;

use sql_statements::Stmt;

/// A change, which it refuses; a SELECT; BEGIN; or COMMIT or ROLLBACK, which end a transaction.
#[derive(Clone, Copy, Debug, PartialEq, Eq)]
pub enum StatementKind {
    Write,
    Select,
    Begin,
    End,
}

pub(crate) fn kind_of(statement: &Stmt) -> StatementKind
    ensures { result ≡ spec.kind_of statement.now }
{
    match statement {
        Stmt::Create { .. } => StatementKind::Write,
        Stmt::Insert { .. } => StatementKind::Write,
        Stmt::Update { .. } => StatementKind::Write,
        Stmt::Delete { .. } => StatementKind::Write,
        Stmt::Select(_) => StatementKind::Select,
        Stmt::Begin => StatementKind::Begin,
        Stmt::Commit => StatementKind::End,
        Stmt::Rollback => StatementKind::End,
    }
}
