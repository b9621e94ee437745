ghost use Rattle.std.specs.Prelude.{◌≡◌, ◌++◌, IfOk, OnOk, option_to_list};
ghost use Rattle.sql_values.specs.Tables.{table_named};
ghost use Rattle.sql_database.specs.Database.{Database};
ghost use Rattle.sql_engine.specs.Read.{mentioned};
ghost use Rattle.sql_engine.specs.Read as spec;

use crate::store::TableStore;
use rm_base::{Name, WantOfMemory};
use sql_statements::Stmt;
use sql_values::Schemas;
use std::alloc::Global;

/// The schemas of the tables that the statement names, of those that there are.
pub fn schemas_named<T: TableStore>(
    alloc: Global,
    store: &T,
    statement: &Stmt,
) -> Result<Schemas, WantOfMemory>
    requires { (d : Database) × T.tables store.now d }
    ensures { (d : Database) → T.tables store.now d
        → IfOk result (λ s. s ≡ spec.schemas_named d.schemas (mentioned statement.now)) }
{
    let mut schemas = Schemas::new(alloc);
    match statement {
        Stmt::Create { schema } => append_named(alloc, store, &schema.table, &mut schemas)?,
        Stmt::Insert { table, .. } => append_named(alloc, store, table, &mut schemas)?,
        Stmt::Update { table, .. } => append_named(alloc, store, table, &mut schemas)?,
        Stmt::Delete { table, .. } => append_named(alloc, store, table, &mut schemas)?,
        Stmt::Select(select) => {
            append_named(alloc, store, &select.left, &mut schemas)?;
            if let Some(join) = &select.join {
                append_named(alloc, store, &join.right, &mut schemas)?;
            }
        }
        Stmt::Begin | Stmt::Commit | Stmt::Rollback => {}
    }
    Ok(schemas)
}

/// Adds the schema of the table with that name, where there is one.
fn append_named<T: TableStore>(
    alloc: Global,
    store: &T,
    name: &Name,
    schemas: &mut Schemas,
) -> Result<(), WantOfMemory>
    requires { (d : Database) × T.tables store.now d }
    ensures { (d : Database) → T.tables store.now d
        → OnOk result (schemas.new ≡ schemas.old ++ option_to_list (table_named d.schemas name.now)) }
{
    match store.schema(alloc, name)? {
        Some(schema) => schemas.push(schema),
        None => Ok(()),
    }
}
