ghost use Rattle.std.specs.Prelude.{◌≡◌, ◌∷◌, [], IfOk, option_map};
ghost use Rattle.sql_exec.specs.Answer.{ComesFrom, Gives, GivesKept, row_or_overflow};
ghost use Rattle.sql_exec.specs.Totals.{total_of};
ghost use Rattle.sql_exec.specs.Kept.{each, values_in};
ghost use Rattle.sql_exec.specs.Kept as spec;
ghost use Rattle.sql_meaning.specs.Terms.{term};

use crate::keeping::{kept, values_of};
use crate::ordering::{cut, ordered};
use crate::outcomes::Outcome;
use crate::totals::totals_of;
use rm_base::WantOfMemory;
use sql_database::SqlReply;
use sql_meaning::{OrderPlaces, Output, Resolved, ResolvedList, Totals};
use sql_values::{Overflow, Row, Rows};
use std::alloc::Global;

/// The outcome of a select over the rows, or pairs, that its test sees.
pub fn select(
    alloc: Global,
    output: &Output,
    test: &Option<Resolved>,
    order: &OrderPlaces,
    limit: Option<i64>,
    rows: &Rows,
) -> Result<Outcome, WantOfMemory>
    ensures { IfOk result (λ o. ComesFrom (GivesKept output.now order.now limit (spec.kept (option_map term test.now) rows.now)) o) }
{
    let rows = kept(alloc, test, rows)?;
    show_kept(alloc, output, order, limit, rows)
}

fn show_kept(
    alloc: Global,
    output: &Output,
    order: &OrderPlaces,
    limit: Option<i64>,
    rows: Result<Rows, Overflow>,
) -> Result<Outcome, WantOfMemory>
    ensures { IfOk result (λ o. ComesFrom (GivesKept output.now order.now limit rows) o) }
{
    match rows {
        Ok(rows) => show(alloc, output, order, limit, rows),
        Err(_) => Ok(Outcome::Refused(SqlReply::Overflow)),
    }
}

fn show(
    alloc: Global,
    output: &Output,
    order: &OrderPlaces,
    limit: Option<i64>,
    rows: Rows,
) -> Result<Outcome, WantOfMemory>
    ensures { IfOk result (λ o. ComesFrom (Gives output.now order.now limit rows) o) }
{
    match output {
        Output::Star => show_all(order, limit, rows),
        Output::Plain(exprs) => show_items(alloc, exprs, order, limit, rows),
        Output::Totals(totals) => show_totals(alloc, totals, rows),
    }
}

fn show_all(order: &OrderPlaces, limit: Option<i64>, rows: Rows) -> Result<Outcome, WantOfMemory>
    ensures { IfOk result (λ o. ComesFrom (Gives Output.Star order.now limit rows) o) }
{
    let rows = ordered(order, rows)?;
    Ok(Outcome::Rows(cut(rows, limit)))
}

fn show_items(
    alloc: Global,
    exprs: &ResolvedList,
    order: &OrderPlaces,
    limit: Option<i64>,
    rows: Rows,
) -> Result<Outcome, WantOfMemory>
    ensures { IfOk result (λ o. ComesFrom (Gives (Output.Plain exprs.now) order.now limit rows) o) }
{
    let rows = ordered(order, rows)?;
    match items_of(alloc, &rows, exprs)? {
        Ok(rows) => Ok(Outcome::Rows(cut(rows, limit))),
        Err(_) => Ok(Outcome::Refused(SqlReply::Overflow)),
    }
}

/// The items of each row.
fn items_of(
    alloc: Global,
    rows: &Rows,
    exprs: &ResolvedList,
) -> Result<Result<Rows, Overflow>, WantOfMemory>
    ensures { IfOk result (λ r. r ≡ each (λ row. values_in row exprs.now) rows.now) }
{
    let mut items = Rows::new(alloc);
    for row in rows.as_slice() {
        match values_of(alloc, row.as_slice(), exprs)? {
            Ok(values) => items.push(values)?,
            Err(overflow) => return Ok(Err(overflow)),
        }
    }
    Ok(Ok(items))
}

fn show_totals(alloc: Global, totals: &Totals, rows: Rows) -> Result<Outcome, WantOfMemory>
    ensures { IfOk result (λ o. ComesFrom (λ a. a ≡ row_or_overflow (each (total_of rows) totals.now)) o) }
{
    match totals_of(alloc, &rows, totals)? {
        Ok(row) => Ok(Outcome::Rows(one_row(alloc, row)?)),
        Err(_) => Ok(Outcome::Refused(SqlReply::Overflow)),
    }
}

fn one_row(alloc: Global, row: Row) -> Result<Rows, WantOfMemory>
    ensures { IfOk result (λ r. r ≡ row ∷ []) }
{
    let mut rows = Rows::new(alloc);
    rows.push(row)?;
    Ok(rows)
}
