//! A SELECT that waits for its stamp.
ghost use Rattle.std.specs.Prelude.{◌≡◌, true};
ghost use Rattle.sql_database.specs.Statements.{is_select};

use rm_base::TrxId;
use sql_statements::Stmt;

/// The statement, and the number of its transaction if it has one.
#[derive(Drop)]
pub(crate) struct Waiting {
    pub(crate) statement: Stmt,
    pub(crate) own: Option<TrxId>,
    ghost select: { is_select statement ≡ true },
}
