ghost use Rattle.std.specs.Prelude.{◌≡◌};
ghost use Rattle.std.specs.Option.{option_copied};
ghost use Rattle.session_state.specs.Rows as spec;

use sql_statements::Stmt;

/// What sort of statement a text is, as far as its session's transaction goes.
#[derive(Clone, Copy, Debug, PartialEq, Eq)]
pub enum StatementClass {
    /// It is no statement.
    Wrong,
    /// SELECT.
    Reads,
    /// CREATE, INSERT, UPDATE or DELETE.
    Writes,
    /// BEGIN.
    Begins,
    /// COMMIT or ROLLBACK.
    Ends,
}

/// The class of a text that was read as this statement, or as none.
pub fn class_of(read: Option<&Stmt>) -> StatementClass
    ensures { result ≡ spec.class_of (option_copied read.entry) }
{
    match read {
        None => StatementClass::Wrong,
        Some(statement) => class_of_statement(statement),
    }
}

fn class_of_statement(statement: &Stmt) -> StatementClass
    ensures { result ≡ spec.class_of_statement statement.now }
{
    match statement {
        Stmt::Create { .. } | Stmt::Insert { .. } | Stmt::Update { .. } | Stmt::Delete { .. } => {
            StatementClass::Writes
        }
        Stmt::Select(_) => StatementClass::Reads,
        Stmt::Begin => StatementClass::Begins,
        Stmt::Commit | Stmt::Rollback => StatementClass::Ends,
    }
}
