ghost use Rattle.std.specs.Prelude.{◌≡◌, ◌++◌, [], ◌∷◌, IfOk, OnOk, ◌&&◌};
ghost use Rattle.std.specs.Option.{option_map_or};
ghost use Rattle.std.specs.Result.{result_err};
ghost use Rattle.sql_values.specs.Tables as tables;
ghost use Rattle.sql_meaning.specs.Names.{scope, table_fields, tables};
ghost use Rattle.sql_meaning.specs.Names as names;
ghost use Rattle.sql_meaning.specs.Places.{placed_action};
ghost use Rattle.sql_meaning.specs.Refusals.{first_missing, refusal, set_key};
ghost use Rattle.sql_meaning.specs.Refusals as spec;

use crate::actions::Action;
use crate::fields::{Field, Fields, append_fields, table_named};
use crate::mentions::{of_tables, of_tuples, unknown_among};
use crate::placing::place_statement;
use crate::refusals::Refusal;
use crate::sorting::{counts_match, has_right_sorts};
use rm_base::{Duplicate, Name, Text, WantOfMemory};
use sql_statements::{Select, Stmt};
use sql_values::Schemas;
use std::alloc::Global;

/// What a statement does over the rows of its tables, or why it is refused before anything is evaluated:
/// the table that exists, else the first table that the schemas lack, else the first column that its tables
/// lack or have twice, else that an operand has not the sort of its place.
pub fn resolve(
    alloc: Global,
    statement: &Stmt,
    schemas: &Schemas,
) -> Result<Result<Action, Refusal>, WantOfMemory>
    ensures refused { IfOk result (λ r. result_err r ≡ refusal schemas.now statement.now) }
    ensures action { IfOk result (λ r. IfOk r (λ a. a ≡ placed_action (scope schemas.now statement.now) statement.now)) }
{
    if let Some(refusal) = table_refusal(alloc, statement, schemas)? {
        return Ok(Err(refusal));
    }
    let fields = statement_fields(alloc, statement, schemas)?;
    if let Some(text) = unknown_column(alloc, fields.as_slice(), statement, schemas)? {
        return Ok(Err(Refusal::NoColumn(text)));
    }
    let action = place_statement(alloc, fields.as_slice(), statement)?;
    if has_right_types(fields.as_slice(), statement, schemas, &action) {
        Ok(Ok(action))
    } else {
        Ok(Err(Refusal::WrongType))
    }
}

#[tactic(auto, unfolding(crate::specs::Refusals::has_right_types))]
fn has_right_types(fields: &[Field], statement: &Stmt, schemas: &Schemas, action: &Action) -> bool
    requires scope { fields.now ≡ scope schemas.now statement.now }
    requires action { action.now ≡ placed_action fields.now statement.now }
    ensures { result ≡ spec.has_right_types schemas.now statement.now }
{
    counts_match(fields, statement)
        && has_right_sorts(fields, key_place(statement, schemas), action)
}

fn key_place(statement: &Stmt, schemas: &Schemas) -> usize
    ensures { result ≡ set_key schemas.now statement.now }
{
    match statement {
        Stmt::Update { table, .. } => match table_named(schemas, table) {
            Some(schema) => usize::from(schema.key),
            None => 0,
        },
        _ => 0,
    }
}

/// The columns of the statement's rows: those of its tables, one table after the other.
pub fn statement_fields(
    alloc: Global,
    statement: &Stmt,
    schemas: &Schemas,
) -> Result<Fields, WantOfMemory>
    ensures { IfOk result (λ f. f ≡ scope schemas.now statement.now) }
{
    let mut fields = Fields::new(alloc);
    match statement {
        Stmt::Insert { table, .. } | Stmt::Update { table, .. } | Stmt::Delete { table, .. } => {
            append_table(alloc, &mut fields, table, schemas)?;
        }
        Stmt::Select(select) => {
            append_table(alloc, &mut fields, &select.left, schemas)?;
            if let Some(join) = &select.join {
                append_table(alloc, &mut fields, &join.right, schemas)?;
            }
        }
        Stmt::Create { .. } | Stmt::Begin | Stmt::Commit | Stmt::Rollback => {}
    }
    Ok(fields)
}

fn append_table(
    alloc: Global,
    fields: &mut Fields,
    table: &Name,
    schemas: &Schemas,
) -> Result<(), WantOfMemory>
    ensures { OnOk result (fields.new ≡ fields.old ++ option_map_or table_fields (tables.table_named schemas.now table.now) []) }
{
    match table_named(schemas, table) {
        Some(schema) => append_fields(alloc, fields, schema),
        None => Ok(()),
    }
}

#[tactic(auto, unfolding(crate::specs::Refusals::table_refusal))]
fn table_refusal(
    alloc: Global,
    statement: &Stmt,
    schemas: &Schemas,
) -> Result<Option<Refusal>, WantOfMemory>
    ensures { IfOk result (λ r. r ≡ spec.table_refusal schemas.now statement.now) }
{
    match statement {
        Stmt::Create { schema } => match table_named(schemas, &schema.table) {
            Some(_) => Ok(Some(Refusal::TableExists(schema.table.copy(alloc)?))),
            None => Ok(None),
        },
        Stmt::Insert { table, .. } | Stmt::Update { table, .. } | Stmt::Delete { table, .. } => {
            missing(alloc, table, schemas)
        }
        Stmt::Select(select) => missing_of_select(alloc, select, schemas),
        Stmt::Begin | Stmt::Commit | Stmt::Rollback => Ok(None),
    }
}

fn missing_of_select(
    alloc: Global,
    select: &Select,
    schemas: &Schemas,
) -> Result<Option<Refusal>, WantOfMemory>
    ensures { IfOk result (λ r. r ≡ first_missing schemas.now (tables (Stmt.Select select.now))) }
{
    match missing(alloc, &select.left, schemas)? {
        Some(refusal) => Ok(Some(refusal)),
        None => match &select.join {
            Some(join) => missing(alloc, &join.right, schemas),
            None => Ok(None),
        },
    }
}

fn missing(alloc: Global, table: &Name, schemas: &Schemas) -> Result<Option<Refusal>, WantOfMemory>
    ensures { IfOk result (λ r. r ≡ first_missing schemas.now (table.now ∷ [])) }
{
    match table_named(schemas, table) {
        Some(_) => Ok(None),
        None => Ok(Some(Refusal::NoTable(table.copy(alloc)?))),
    }
}

/// The first column of the text that the statement's tables lack, or have twice.
#[tactic(auto, unfolding(crate::specs::Refusals::unknown_column))]
fn unknown_column(
    alloc: Global,
    fields: &[Field],
    statement: &Stmt,
    schemas: &Schemas,
) -> Result<Option<Text>, WantOfMemory>
    requires { fields.now ≡ scope schemas.now statement.now }
    ensures { IfOk result (λ r. r ≡ spec.unknown_column schemas.now statement.now) }
{
    let mentions = of_tables(alloc, statement)?;
    match unknown_among(alloc, fields, &mentions)? {
        Some(text) => Ok(Some(text)),
        None => {
            let mentions = of_tuples(alloc, statement)?;
            unknown_among(alloc, &[], &mentions)
        }
    }
}
