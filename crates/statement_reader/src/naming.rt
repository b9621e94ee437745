//! Where the catalog has the tables of a statement.
ghost use Rattle.std.specs.Prelude.{◌≡◌, Some, IfOk};
ghost use Rattle.sql_exec.specs.Answer as answer;
ghost use Rattle.statement_reader.specs.Question as asked;

use rm_base::{Bytes, KeyRange, Name, WantOfMemory};
use sql_statements::{Select, Stmt};
use std::alloc::Global;

pub(crate) fn is_join(statement: &Stmt) -> bool
    ensures { result ≡ answer.is_join statement.now }
{
    match statement {
        Stmt::Select(select) => select.join.is_some(),
        _ => false,
    }
}

fn copied(alloc: Global, bytes: &[u8]) -> Result<Bytes, WantOfMemory>
    ensures { IfOk result (λ copy. copy ≡ bytes.now) }
{
    let mut copy = Bytes::new(alloc);
    copy.append(bytes)?;
    Ok(copy)
}

/// The range of one name.
fn only(alloc: Global, name: &Name) -> Result<KeyRange, WantOfMemory>
    ensures { IfOk result (λ range. range ≡ asked.only name.now) }
{
    Ok(KeyRange {
        low: Some(copied(alloc, name.as_slice())?),
        high: Some(copied(alloc, name.as_slice())?),
    })
}

/// Where the only or left table is named, if there is one.
pub(crate) fn left_range(alloc: Global, statement: &Stmt) -> Result<Option<KeyRange>, WantOfMemory>
    ensures { IfOk result (λ range. range ≡ asked.left_range statement.now) }
{
    match statement {
        Stmt::Create { schema } => Ok(Some(only(alloc, &schema.table)?)),
        Stmt::Insert { table, .. } => Ok(Some(only(alloc, table)?)),
        Stmt::Update { table, .. } => Ok(Some(only(alloc, table)?)),
        Stmt::Delete { table, .. } => Ok(Some(only(alloc, table)?)),
        Stmt::Select(select) => Ok(Some(only(alloc, &select.left)?)),
        Stmt::Begin | Stmt::Commit | Stmt::Rollback => Ok(None),
    }
}

fn join_range(alloc: Global, select: &Select) -> Result<Option<KeyRange>, WantOfMemory>
    ensures { IfOk result (λ range. range ≡ asked.join_range select.now) }
{
    match &select.join {
        None => Ok(None),
        Some(join) => Ok(Some(only(alloc, &join.right)?)),
    }
}

/// Where the right table is named, if there is one.
pub(crate) fn right_range(alloc: Global, statement: &Stmt) -> Result<Option<KeyRange>, WantOfMemory>
    ensures { IfOk result (λ range. range ≡ asked.right_range statement.now) }
{
    match statement {
        Stmt::Select(select) => join_range(alloc, select),
        _ => Ok(None),
    }
}
