ghost use Rattle.std.specs.Prelude.{◌≡◌, ◌∷◌, [], IfOk, None};
ghost use Rattle.std.specs.Option.{option_copied};
ghost use Rattle.sql_exec.specs.Answer.{Answers, ComesFrom, Does, IsAct, deletes, inserts, on_target, outcome_of, source, updates};
ghost use Rattle.sql_database.specs.Statements.{IsEvaluated};
ghost use Rattle.sql_database.specs.Answers.{wants};
ghost use Rattle.sql_exec.specs.Answer as spec;
ghost use Rattle.sql_database.specs.Catalog.{creation};
ghost use Rattle.sql_meaning.specs.Names.{scope};
ghost use Rattle.sql_meaning.specs.Places.{placed_action};

use crate::keeping::pair_rows;
use crate::outcomes::Outcome;
use crate::rows::RangeRows;
use crate::selecting::select;
use crate::writing::{delete, insert, update};
use rm_base::WantOfMemory;
use sql_database::{Change, Changes, SqlReply, create_table};
use sql_meaning::{Action, Refusal, Resolved, ResolvedRows, SetPlaces, resolve, table_named};
use sql_statements::Stmt;
use sql_values::{Rows, Schema, Schemas};
use std::alloc::Global;

/// What the statement answers over the rows of its ranges. Whether a key is in conflict is not asked here.
pub fn eval(
    alloc: Global,
    statement: &Stmt,
    schemas: &Schemas,
    rows: &RangeRows,
) -> Result<Outcome, WantOfMemory>
    requires { IsEvaluated statement.now }
    ensures { IfOk result (λ o. ComesFrom (Answers schemas.now rows.now statement.now) o) }
{
    match resolve(alloc, statement, schemas)? {
        Ok(action) => act(alloc, statement, schemas, rows, &action),
        Err(refusal) => Ok(Outcome::Refused(reply_of(refusal))),
    }
}

fn reply_of(refusal: Refusal) -> SqlReply
    ensures { result ≡ spec.reply_of refusal }
{
    match refusal {
        Refusal::TableExists(table) => SqlReply::TableExists(table),
        Refusal::NoTable(table) => SqlReply::NoTable(table),
        Refusal::NoColumn(text) => SqlReply::NoColumn(text),
        Refusal::WrongType => SqlReply::WrongType,
    }
}

/// The schema of the table that the statement changes.
fn target<'a>(statement: &'a Stmt, schemas: &'a Schemas) -> Option<&'a Schema>
    ensures { option_copied result ≡ spec.target schemas.now statement.now }
{
    match statement {
        Stmt::Create { schema } => Some(schema),
        Stmt::Insert { table, .. } => table_named(schemas, table),
        Stmt::Update { table, .. } => table_named(schemas, table),
        Stmt::Delete { table, .. } => table_named(schemas, table),
        Stmt::Select(_) | Stmt::Begin | Stmt::Commit | Stmt::Rollback => None,
    }
}

fn is_join(statement: &Stmt) -> bool
    ensures { result ≡ spec.is_join statement.now }
{
    match statement {
        Stmt::Select(select) => select.join.is_some(),
        _ => false,
    }
}

fn act(
    alloc: Global,
    statement: &Stmt,
    schemas: &Schemas,
    rows: &RangeRows,
    action: &Action,
) -> Result<Outcome, WantOfMemory>
    requires { IsAct action.now }
    ensures { IfOk result (λ o. ComesFrom (Does (spec.target schemas.now statement.now) (source statement.now rows.now) action.now) o) }
{
    let target = target(statement, schemas);
    if is_join(statement) {
        let pairs = pair_rows(alloc, rows)?;
        run(alloc, target, &pairs, action)
    } else {
        run(alloc, target, &rows.left, action)
    }
}

fn run(
    alloc: Global,
    target: Option<&Schema>,
    there: &Rows,
    action: &Action,
) -> Result<Outcome, WantOfMemory>
    requires { IsAct action.now }
    ensures { IfOk result (λ o. ComesFrom (Does (option_copied target.entry) there.now action.now) o) }
{
    match action {
        Action::Create => run_create(alloc, target),
        Action::Insert { tuples } => run_insert(alloc, target, there, tuples),
        Action::Update { sets, test } => run_update(alloc, target, there, sets, test),
        Action::Delete { test } => run_delete(alloc, target, there, test),
        Action::Select {
            output,
            test,
            order,
            limit,
        } => { select(alloc, output, test, order, *limit, there) }
        Action::Control => unreachable!(),
    }
}

fn run_create(alloc: Global, target: Option<&Schema>) -> Result<Outcome, WantOfMemory>
    ensures { IfOk result (λ o. ComesFrom (λ a. a ≡ on_target (option_copied target.entry) (λ s. wants (creation s ∷ []) 0 None)) o) }
{
    match target {
        Some(schema) => {
            let change = create_table(alloc, schema)?;
            Ok(Outcome::Changes(one_change(alloc, change)?))
        }
        None => Ok(Outcome::Rows(Rows::new(alloc))),
    }
}

fn one_change(alloc: Global, change: Change) -> Result<Changes, WantOfMemory>
    ensures { IfOk result (λ r. r ≡ change ∷ []) }
{
    let mut changes = Changes::new(alloc);
    changes.push(change)?;
    Ok(changes)
}

fn run_insert(
    alloc: Global,
    target: Option<&Schema>,
    there: &Rows,
    tuples: &ResolvedRows,
) -> Result<Outcome, WantOfMemory>
    ensures { IfOk result (λ o. ComesFrom (λ a. a ≡ on_target (option_copied target.entry) (λ s. inserts s there.now tuples.now)) o) }
{
    match target {
        Some(schema) => insert(alloc, schema, there, tuples),
        None => Ok(Outcome::Rows(Rows::new(alloc))),
    }
}

fn run_update(
    alloc: Global,
    target: Option<&Schema>,
    there: &Rows,
    sets: &SetPlaces,
    test: &Option<Resolved>,
) -> Result<Outcome, WantOfMemory>
    ensures { IfOk result (λ o. ComesFrom (λ a. a ≡ on_target (option_copied target.entry) (λ s. updates s there.now sets.now test.now)) o) }
{
    match target {
        Some(schema) => update(alloc, schema, there, sets, test),
        None => Ok(Outcome::Rows(Rows::new(alloc))),
    }
}

fn run_delete(
    alloc: Global,
    target: Option<&Schema>,
    there: &Rows,
    test: &Option<Resolved>,
) -> Result<Outcome, WantOfMemory>
    ensures { IfOk result (λ o. ComesFrom (λ a. a ≡ on_target (option_copied target.entry) (λ s. deletes s there.now test.now)) o) }
{
    match target {
        Some(schema) => delete(alloc, schema, there, test),
        None => Ok(Outcome::Rows(Rows::new(alloc))),
    }
}
