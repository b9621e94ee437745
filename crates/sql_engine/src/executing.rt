ghost use Rattle.std.specs.Prelude.{◌≡◌, ◌≢◌, IfOk, IsErr, IsOk, OnOk};
ghost use Rattle.sql_exec.specs.Answer.{ComesFrom};
ghost use Rattle.sql_database.specs.Statements.{IsEvaluated};
ghost use Rattle.sql_exec.specs.Whole.{AnswersOver};
ghost use Rattle.sql_database.specs.Database.{Database};
ghost use Rattle.sql_engine.specs.Executed.{Executes, MakesTable};

use crate::making::{make_changes, make_table};
use crate::naming::schemas_named;
use crate::reading::read;
use crate::store::{SpaceFull, TableStore};
use rm_base::WantOfMemory;
use sql_database::{Changes, SqlReply};
use sql_exec::{Outcome, eval};
use sql_statements::Stmt;
use std::alloc::Global;

/// Runs one statement that is no BEGIN, COMMIT or ROLLBACK, and gives what the session is to be told. What the
/// store keeps stays. After `SpaceFull` the store is full, and nothing else is said of it then, nor after want
/// of memory.
pub fn execute<T: TableStore>(
    alloc: Global,
    store: &mut T,
    statement: &Stmt,
) -> Result<SqlReply, WantOfMemory>
    requires evaluated { IsEvaluated statement.now }
    requires makes { MakesTable statement.now }
    requires known { (d : Database) × T.tables store.old d }
    ensures executes { (d : Database) → T.tables store.old d
        → IfOk result (Executes d statement.now (T.tables store.new) (T.full store.new)) }
    ensures keeps { (k : Database) → T.kept store.old k → T.kept store.new k }
{
    match answered(alloc, store, statement)? {
        Outcome::Rows(rows) => Ok(SqlReply::Rows(rows)),
        Outcome::Refused(reply) => Ok(reply),
        Outcome::Changes(changes) => make(alloc, store, statement, &changes),
        Outcome::Duplicate(repeated) => Ok(SqlReply::Duplicate(repeated.key)),
    }
}

/// What the statement answers over all rows. It reads those of its ranges alone.
fn answered<T: TableStore>(
    alloc: Global,
    store: &T,
    statement: &Stmt,
) -> Result<Outcome, WantOfMemory>
    requires evaluated { IsEvaluated statement.now }
    requires known { (d : Database) × T.tables store.now d }
    ensures { (d : Database) → T.tables store.now d
        → IfOk result (ComesFrom (AnswersOver d statement.now)) }
{
    store.rules();
    let schemas = schemas_named(alloc, store, statement)?;
    let rows = read(alloc, store, statement, &schemas)?;
    eval(alloc, statement, &schemas, &rows)
}

/// Makes the changes that the statement wants.
fn make<T: TableStore>(
    alloc: Global,
    store: &mut T,
    statement: &Stmt,
    changes: &Changes,
) -> Result<SqlReply, WantOfMemory>
    requires makes { MakesTable statement.now }
    requires wanted { (d : Database) × T.tables store.old d
        × ComesFrom (AnswersOver d statement.now) (Outcome.Changes changes.now) }
    ensures executes { (d : Database) → T.tables store.old d
        → ComesFrom (AnswersOver d statement.now) (Outcome.Changes changes.now)
        → IfOk result (Executes d statement.now (T.tables store.new) (T.full store.new)) }
    ensures keeps { (k : Database) → T.kept store.old k → T.kept store.new k }
{
    store.rules();
    match statement {
        Stmt::Create { schema } => Ok(told(make_table(alloc, store, schema)?, 0)),
        _ => {
            let made = make_changes(alloc, store, changes)?;
            Ok(told(made, changes.len() as u64))
        }
    }
}

/// How many rows were changed, or that there was no room.
fn told(made: Result<(), SpaceFull>, rows: u64) -> SqlReply
    ensures ok { IsOk made → result ≡ SqlReply.Ok rows }
    ensures full { IsErr made → result ≡ SqlReply.SpaceFull }
{
    match made {
        Ok(()) => SqlReply::Ok(rows),
        Err(SpaceFull) => SqlReply::SpaceFull,
    }
}
