ghost use Rattle.std.specs.Prelude.{◌≡◌, ◌++◌, Some, IfOk, OnOk, option_map};
ghost use Rattle.std.specs.Option.{option_map_or};
ghost use Rattle.sql_values.specs.Tables.{table_named};
ghost use Rattle.sql_database.specs.Database.{Database};
ghost use Rattle.sql_engine.specs.Read.{AreOf, range_rows, ranges_rows, read_rows, table_rows};
ghost use Rattle.sql_meaning.specs.Ranges as plan;
ghost use Rattle.sql_engine.specs.Read as spec;

use crate::store::TableStore;
use rm_base::{Name, Ranges, WantOfMemory};
use sql_exec::{RangeRows, RowLists};
use sql_meaning::table_named;
use sql_plan::Planner;
use sql_statements::{Select, Stmt};
use sql_values::{Row, Rows, Schema, Schemas};
use std::alloc::Global;

/// The rows of the statement's ranges. A range that several tuples of an INSERT have is read for each of
/// them.
pub fn read<T: TableStore>(
    alloc: Global,
    store: &T,
    statement: &Stmt,
    schemas: &Schemas,
) -> Result<RangeRows, WantOfMemory>
    requires { (d : Database) × T.tables store.now d × AreOf schemas.now d.schemas }
    ensures { (d : Database) → T.tables store.now d
        → IfOk result (λ r. r ≡ read_rows d.tables schemas.now statement.now) }
{
    let planner = Planner::new(alloc, statement, schemas)?;
    match statement {
        Stmt::Insert { table, .. } => read_only(alloc, store, &planner, table),
        Stmt::Update { table, .. } => read_only(alloc, store, &planner, table),
        Stmt::Delete { table, .. } => read_only(alloc, store, &planner, table),
        Stmt::Select(select) => read_selected(alloc, store, &planner, select),
        Stmt::Create { .. } | Stmt::Begin | Stmt::Commit | Stmt::Rollback => Ok(only(
            alloc,
            Rows::new(alloc),
        )),
    }
}

fn only(alloc: Global, rows: Rows) -> RangeRows
    ensures { result ≡ spec.only rows }
{
    RangeRows {
        left: rows,
        right: RowLists::new(alloc),
    }
}

fn read_only<T: TableStore>(
    alloc: Global,
    store: &T,
    planner: &Planner,
    table: &Name,
) -> Result<RangeRows, WantOfMemory>
    requires { (d : Database) × T.tables store.now d × AreOf planner.now.schemas d.schemas }
    ensures { (d : Database) → T.tables store.now d
        → IfOk result (λ r. r ≡ spec.only (spec.left_rows d.tables planner.now.schemas planner.now.statement table.now)) }
{
    let rows = rows_for(alloc, store, planner, table, None)?;
    Ok(only(alloc, rows))
}

fn read_selected<T: TableStore>(
    alloc: Global,
    store: &T,
    planner: &Planner,
    select: &Select,
) -> Result<RangeRows, WantOfMemory>
    requires { (d : Database) × T.tables store.now d × AreOf planner.now.schemas d.schemas }
    ensures { (d : Database) → T.tables store.now d
        → IfOk result (λ r. r ≡ option_map_or
        (λ j. spec.paired d.tables planner.now.schemas planner.now.statement j.right (spec.left_rows d.tables planner.now.schemas planner.now.statement select.now.left))
        select.now.join
        (spec.only (spec.left_rows d.tables planner.now.schemas planner.now.statement select.now.left))) }
{
    match &select.join {
        Some(join) => read_paired(alloc, store, planner, &select.left, &join.right),
        None => read_only(alloc, store, planner, &select.left),
    }
}

/// The left rows, and for each the right rows of its own ranges.
fn read_paired<T: TableStore>(
    alloc: Global,
    store: &T,
    planner: &Planner,
    left: &Name,
    right: &Name,
) -> Result<RangeRows, WantOfMemory>
    requires { (d : Database) × T.tables store.now d × AreOf planner.now.schemas d.schemas }
    ensures { (d : Database) → T.tables store.now d
        → IfOk result (λ r. r ≡ spec.paired d.tables planner.now.schemas planner.now.statement right.now (spec.left_rows d.tables planner.now.schemas planner.now.statement left.now)) }
{
    let left = rows_for(alloc, store, planner, left, None)?;
    let right = right_rows(alloc, store, planner, right, &left)?;
    Ok(RangeRows { left, right })
}

fn right_rows<T: TableStore>(
    alloc: Global,
    store: &T,
    planner: &Planner,
    table: &Name,
    left: &Rows,
) -> Result<RowLists, WantOfMemory>
    requires { (d : Database) × T.tables store.now d × AreOf planner.now.schemas d.schemas }
    ensures { (d : Database) → T.tables store.now d
        → IfOk result (λ lists. lists ≡ spec.right_rows d.tables planner.now.schemas planner.now.statement table.now left.now) }
{
    let mut lists = RowLists::new(alloc);
    for row in left.as_slice() {
        lists.push(rows_for(alloc, store, planner, table, Some(row))?)?;
    }
    Ok(lists)
}

/// The rows of a table in the statement's ranges: of its only or left table, or with a left row of its
/// right table.
fn rows_for<T: TableStore>(
    alloc: Global,
    store: &T,
    planner: &Planner,
    table: &Name,
    left_row: Option<&Row>,
) -> Result<Rows, WantOfMemory>
    requires { (d : Database) × T.tables store.now d × AreOf planner.now.schemas d.schemas }
    ensures { (d : Database) → T.tables store.now d
        → IfOk result (λ rows. rows ≡ table_rows d.tables planner.now.schemas table.now (plan.ranges planner.now.schemas planner.now.statement (option_map (λ r. r.now) left_row.entry))) }
{
    let ranges = planner.ranges(alloc, left_row)?;
    match table_named(planner.schemas(), table) {
        Some(schema) => rows_in(alloc, store, schema, &ranges),
        None => Ok(Rows::new(alloc)),
    }
}

fn rows_in<T: TableStore>(
    alloc: Global,
    store: &T,
    schema: &Schema,
    ranges: &Ranges,
) -> Result<Rows, WantOfMemory>
    requires { (d : Database) × T.tables store.now d × (table_named d.schemas schema.now.table ≡ Some schema.now) }
    ensures { (d : Database) → T.tables store.now d
        → IfOk result (λ rows. rows ≡ ranges_rows d.tables schema.now ranges.now) }
{
    let mut rows = Rows::new(alloc);
    for range in ranges.as_slice() {
        let more = store.rows(alloc, schema, range)?;
        append(&mut rows, more)?;
    }
    Ok(rows)
}

fn append(rows: &mut Rows, more: Rows) -> Result<(), WantOfMemory>
    ensures { OnOk result (rows.new ≡ rows.old ++ more) }
{
    for row in more.into_vec() {
        rows.push(row)?;
    }
    Ok(())
}
