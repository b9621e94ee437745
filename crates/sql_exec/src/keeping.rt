ghost use Rattle.std.specs.Prelude.{◌≡◌, ◌++◌, [], IfOk, OnOk, map, option_map, slice_get};
ghost use Rattle.sql_exec.specs.Kept.{each, pairs, pairs_of, values_in};
ghost use Rattle.sql_exec.specs.Kept as spec;
ghost use Rattle.sql_meaning.specs.Terms.{term};

use crate::rows::{RangeRows, RowLists};
use rm_base::{Duplicate, WantOfMemory};
use sql_meaning::{Resolved, ResolvedList, ResolvedRows, test_truth};
use sql_values::{Overflow, Row, Rows, Truth, Value};
use std::alloc::Global;

/// The rows that the test keeps. It is evaluated for every row.
pub fn kept(
    alloc: Global,
    test: &Option<Resolved>,
    rows: &Rows,
) -> Result<Result<Rows, Overflow>, WantOfMemory>
    ensures { IfOk result (λ r. r ≡ spec.kept (option_map term test.now) rows.now) }
{
    let mut kept = Rows::new(alloc);
    for row in rows.as_slice() {
        match test_truth(alloc, test, row.as_slice())? {
            Ok(Truth::Yes) => kept.push(row.copy(alloc)?)?,
            Ok(Truth::No | Truth::Unknown) => {}
            Err(overflow) => return Ok(Err(overflow)),
        }
    }
    Ok(Ok(kept))
}

/// The values of the expressions in a row.
pub fn values_of(
    alloc: Global,
    row: &[Value],
    exprs: &ResolvedList,
) -> Result<Result<Row, Overflow>, WantOfMemory>
    ensures { IfOk result (λ r. r ≡ values_in row.now exprs.now) }
{
    let mut values = Row::new(alloc);
    for expr in exprs.as_slice() {
        match expr.value(alloc, row)? {
            Ok(value) => values.push(value)?,
            Err(overflow) => return Ok(Err(overflow)),
        }
    }
    Ok(Ok(values))
}

/// The values of each tuple, which has no row.
pub fn all_values(
    alloc: Global,
    tuples: &ResolvedRows,
) -> Result<Result<Rows, Overflow>, WantOfMemory>
    ensures { IfOk result (λ r. r ≡ each (λ t. values_in [] t) tuples.now) }
{
    let mut rows = Rows::new(alloc);
    for tuple in tuples.as_slice() {
        match values_of(alloc, &[], tuple)? {
            Ok(row) => rows.push(row)?,
            Err(overflow) => return Ok(Err(overflow)),
        }
    }
    Ok(Ok(rows))
}

/// Each left row with each of its right rows.
#[tactic(auto, using(crate::proofs::KeptLaws::pairs_next))]
pub fn pair_rows(alloc: Global, rows: &RangeRows) -> Result<Rows, WantOfMemory>
    ensures { IfOk result (λ r. r ≡ pairs rows.now.left rows.now.right) }
{
    let mut joined = Rows::new(alloc);
    for (at, left) in rows.left.as_slice().iter().enumerate() {
        push_at(alloc, &mut joined, left, &rows.right, at)?;
    }
    Ok(joined)
}

fn push_at(
    alloc: Global,
    joined: &mut Rows,
    left: &Row,
    rights: &RowLists,
    at: usize,
) -> Result<(), WantOfMemory>
    ensures { OnOk result (joined.new ≡ joined.old ++ pairs_of left.now (slice_get rights.now at)) }
{
    match rights.get(at) {
        Some(rights) => push_pairs(alloc, joined, left, rights),
        None => Ok(()),
    }
}

fn push_pairs(
    alloc: Global,
    joined: &mut Rows,
    left: &Row,
    rights: &Rows,
) -> Result<(), WantOfMemory>
    ensures { OnOk result (joined.new ≡ joined.old ++ map (λ r. left.now ++ r) rights.now) }
{
    for right in rights.as_slice() {
        joined.push(join_rows(alloc, left, right)?)?;
    }
    Ok(())
}

fn join_rows(alloc: Global, left: &Row, right: &Row) -> Result<Row, WantOfMemory>
    ensures { IfOk result (λ r. r ≡ left.now ++ right.now) }
{
    let mut row = left.copy(alloc)?;
    for value in right.as_slice() {
        row.push(value.copy(alloc)?)?;
    }
    Ok(row)
}
