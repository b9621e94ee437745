ghost use Rattle.std.specs.Prelude.{◌≡◌, [], IfOk, map, option_map, unwrap_or, position, bytes_eq};
ghost use Rattle.sql_meaning.specs.Places.{placed, placed_action, placed_agg, placed_on, placed_order, placed_output, placed_set, placed_test, placed_tuple, both_tests};
ghost use Rattle.sql_meaning.specs.Places as spec;

use crate::actions::{Action, OrderPlace, OrderPlaces, Output, SetPlace, SetPlaces, Total, Totals};
use crate::fields::{Field, place_of};
use crate::resolved::{Resolved, ResolvedList, ResolvedRows};
use rm_base::{Duplicate, Name, Names, WantOfMemory};
use sql_statements::{
    Agg, Aggs, Expr, ExprRows, Exprs, Join, Op, OrderKey, Orders, Select, Selected, SetItem, Sets,
    Stmt,
};
use sql_values::Value;
use sqlite_items::Boxed;
use std::alloc::Global;

/// The expression over rows that have these fields. A column that is none of them stands as NULL.
pub fn place_expr(alloc: Global, fields: &[Field], expr: &Expr) -> Result<Resolved, WantOfMemory>
    ensures { IfOk result (λ r. r ≡ placed fields.now expr.now) }
{
    match expr {
        Expr::Lit(value) => Ok(Resolved::Lit(value.copy(alloc)?)),
        Expr::Col { table, name } => match place_of(fields, table, name) {
            Some(place) => Ok(Resolved::Cell(place)),
            None => Ok(Resolved::Lit(Value::Null)),
        },
        Expr::Neg(arg) => {
            let arg = place_expr(alloc, fields, arg.get())?;
            Ok(Resolved::Neg(Boxed::new(alloc, arg)?))
        }
        Expr::Not(arg) => {
            let arg = place_expr(alloc, fields, arg.get())?;
            Ok(Resolved::Not(Boxed::new(alloc, arg)?))
        }
        Expr::IsNull { arg, not } => {
            let arg = place_expr(alloc, fields, arg.get())?;
            Ok(Resolved::IsNull {
                arg: Boxed::new(alloc, arg)?,
                not: *not,
            })
        }
        Expr::Two { op, left, right } => {
            let left = place_expr(alloc, fields, left.get())?;
            let right = place_expr(alloc, fields, right.get())?;
            two(alloc, *op, left, right)
        }
    }
}

fn two(alloc: Global, op: Op, left: Resolved, right: Resolved) -> Result<Resolved, WantOfMemory>
    ensures { IfOk result (λ r. r ≡ Resolved.Two op left right) }
{
    let left = Boxed::new(alloc, left)?;
    let right = Boxed::new(alloc, right)?;
    Ok(Resolved::Two { op, left, right })
}

fn place_all(alloc: Global, fields: &[Field], exprs: &Exprs) -> Result<ResolvedList, WantOfMemory>
    ensures { IfOk result (λ r. r ≡ map (placed fields.now) exprs.now) }
{
    let mut items = ResolvedList::new(alloc);
    for expr in exprs.as_slice() {
        items.push(place_expr(alloc, fields, expr)?)?;
    }
    Ok(items)
}

fn place_of_name(names: &Names, name: &Name) -> Option<usize>
    ensures { result ≡ position (λ n. bytes_eq n name.now) names.now }
{
    names
        .as_slice()
        .iter()
        .position(|other| other.as_slice() == name.as_slice())
}

fn place_named(
    alloc: Global,
    names: &Names,
    tuple: &Exprs,
    field: &Field,
) -> Result<Resolved, WantOfMemory>
    ensures { IfOk result (λ r. r ≡ spec.named_value names.now tuple.now field.now) }
{
    match place_of_name(names, &field.name) {
        None => Ok(Resolved::Lit(Value::Null)),
        Some(at) => match tuple.get(at) {
            None => Ok(Resolved::Lit(Value::Null)),
            Some(expr) => place_expr(alloc, &[], expr),
        },
    }
}

fn place_all_named(
    alloc: Global,
    fields: &[Field],
    names: &Names,
    tuple: &Exprs,
) -> Result<ResolvedList, WantOfMemory>
    ensures { IfOk result (λ r. r ≡ map (spec.named_value names.now tuple.now) fields.now) }
{
    let mut items = ResolvedList::new(alloc);
    for field in fields {
        items.push(place_named(alloc, names, tuple, field)?)?;
    }
    Ok(items)
}

fn place_tuple(
    alloc: Global,
    fields: &[Field],
    names: &Option<Names>,
    tuple: &Exprs,
) -> Result<ResolvedList, WantOfMemory>
    ensures { IfOk result (λ r. r ≡ placed_tuple fields.now names.now tuple.now) }
{
    match names {
        None => place_all(alloc, &[], tuple),
        Some(names) => place_all_named(alloc, fields, names, tuple),
    }
}

fn place_tuples(
    alloc: Global,
    fields: &[Field],
    names: &Option<Names>,
    rows: &ExprRows,
) -> Result<ResolvedRows, WantOfMemory>
    ensures { IfOk result (λ r. r ≡ map (placed_tuple fields.now names.now) rows.now) }
{
    let mut tuples = ResolvedRows::new(alloc);
    for row in rows.as_slice() {
        tuples.push(place_tuple(alloc, fields, names, row)?)?;
    }
    Ok(tuples)
}

fn place_set(alloc: Global, fields: &[Field], set: &SetItem) -> Result<SetPlace, WantOfMemory>
    ensures { IfOk result (λ r. r ≡ placed_set fields.now set.now) }
{
    let place = place_of(fields, &None, &set.name).unwrap_or(0);
    let value = place_expr(alloc, fields, &set.value)?;
    Ok(SetPlace { place, value })
}

fn place_sets(alloc: Global, fields: &[Field], sets: &Sets) -> Result<SetPlaces, WantOfMemory>
    ensures { IfOk result (λ r. r ≡ map (placed_set fields.now) sets.now) }
{
    let mut items = SetPlaces::new(alloc);
    for set in sets.as_slice() {
        items.push(place_set(alloc, fields, set)?)?;
    }
    Ok(items)
}

fn place_test(
    alloc: Global,
    fields: &[Field],
    test: &Option<Expr>,
) -> Result<Option<Resolved>, WantOfMemory>
    ensures { IfOk result (λ r. r ≡ placed_test fields.now test.now) }
{
    match test {
        None => Ok(None),
        Some(test) => Ok(Some(place_expr(alloc, fields, test)?)),
    }
}

fn place_on(
    alloc: Global,
    fields: &[Field],
    join: &Option<Join>,
) -> Result<Option<Resolved>, WantOfMemory>
    ensures { IfOk result (λ r. r ≡ placed_on fields.now join.now) }
{
    match join {
        None => Ok(None),
        Some(join) => Ok(Some(place_expr(alloc, fields, &join.on)?)),
    }
}

/// ON and WHERE as one test.
fn join_tests(
    alloc: Global,
    on: Option<Resolved>,
    test: Option<Resolved>,
) -> Result<Option<Resolved>, WantOfMemory>
    ensures { IfOk result (λ r. r ≡ both_tests on test) }
{
    match (on, test) {
        (None, test) => Ok(test),
        (Some(on), None) => Ok(Some(on)),
        (Some(on), Some(test)) => Ok(Some(two(alloc, Op::And, on, test)?)),
    }
}

fn place_agg(alloc: Global, fields: &[Field], agg: &Agg) -> Result<Total, WantOfMemory>
    ensures { IfOk result (λ r. r ≡ placed_agg fields.now agg.now) }
{
    match agg {
        Agg::CountAll => Ok(Total::CountAll),
        Agg::Count(arg) => Ok(Total::Count(place_expr(alloc, fields, arg)?)),
        Agg::Sum(arg) => Ok(Total::Sum(place_expr(alloc, fields, arg)?)),
        Agg::Min(arg) => Ok(Total::Min(place_expr(alloc, fields, arg)?)),
        Agg::Max(arg) => Ok(Total::Max(place_expr(alloc, fields, arg)?)),
    }
}

fn place_aggs(alloc: Global, fields: &[Field], aggs: &Aggs) -> Result<Totals, WantOfMemory>
    ensures { IfOk result (λ r. r ≡ map (placed_agg fields.now) aggs.now) }
{
    let mut totals = Totals::new(alloc);
    for agg in aggs.as_slice() {
        totals.push(place_agg(alloc, fields, agg)?)?;
    }
    Ok(totals)
}

fn place_output(
    alloc: Global,
    fields: &[Field],
    selected: &Selected,
) -> Result<Output, WantOfMemory>
    ensures { IfOk result (λ r. r ≡ placed_output fields.now selected.now) }
{
    match selected {
        Selected::Star => Ok(Output::Star),
        Selected::Plain(exprs) => Ok(Output::Plain(place_all(alloc, fields, exprs)?)),
        Selected::Aggs(aggs) => Ok(Output::Totals(place_aggs(alloc, fields, aggs)?)),
    }
}

fn place_order(fields: &[Field], key: &OrderKey) -> OrderPlace
    ensures { result ≡ placed_order fields.now key.now }
{
    OrderPlace {
        place: place_of(fields, &key.table, &key.name).unwrap_or(0),
        desc: key.desc,
    }
}

fn place_orders(
    alloc: Global,
    fields: &[Field],
    orders: &Orders,
) -> Result<OrderPlaces, WantOfMemory>
    ensures { IfOk result (λ r. r ≡ map (placed_order fields.now) orders.now) }
{
    let mut places = OrderPlaces::new(alloc);
    for key in orders.as_slice() {
        places.push(place_order(fields, key))?;
    }
    Ok(places)
}

fn place_select(alloc: Global, fields: &[Field], select: &Select) -> Result<Action, WantOfMemory>
    ensures { IfOk result (λ r. r ≡ placed_action fields.now (Stmt.Select select.now)) }
{
    let output = place_output(alloc, fields, &select.items)?;
    let on = place_on(alloc, fields, &select.join)?;
    let test = place_test(alloc, fields, &select.test)?;
    let test = join_tests(alloc, on, test)?;
    let order = place_orders(alloc, fields, &select.order)?;
    Ok(Action::Select {
        output,
        test,
        order,
        limit: select.limit,
    })
}

/// What the statement does, over rows that have these fields.
pub fn place_statement(
    alloc: Global,
    fields: &[Field],
    statement: &Stmt,
) -> Result<Action, WantOfMemory>
    ensures { IfOk result (λ r. r ≡ placed_action fields.now statement.now) }
{
    match statement {
        Stmt::Create { .. } => Ok(Action::Create),
        Stmt::Insert { columns, rows, .. } => Ok(Action::Insert {
            tuples: place_tuples(alloc, fields, columns, rows)?,
        }),
        Stmt::Update { sets, test, .. } => {
            let sets = place_sets(alloc, fields, sets)?;
            let test = place_test(alloc, fields, test)?;
            Ok(Action::Update { sets, test })
        }
        Stmt::Delete { test, .. } => Ok(Action::Delete {
            test: place_test(alloc, fields, test)?,
        }),
        Stmt::Select(select) => place_select(alloc, fields, select),
        Stmt::Begin | Stmt::Commit | Stmt::Rollback => Ok(Action::Control),
    }
}
