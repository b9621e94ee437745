ghost use Rattle.std.specs.Prelude.{◌≡◌, IfOk, pos, negsuc, ◌≤ℤ◌};
ghost use Rattle.std.specs.List.{list_all};
ghost use Rattle.sql_exec.specs.Kept.{each};
ghost use Rattle.sql_exec.specs.Totals.{column_of, exact_total, greatest_of, least_of, total_of};
ghost use Rattle.sql_exec.specs.Totals as spec;
ghost use Rattle.sql_values.specs.Arithmetic.{int_of};

use rm_base::WantOfMemory;
use sql_meaning::{Resolved, Total, Totals};
use sql_values::{Overflow, Row, Rows, Value, order};
use std::alloc::Global;

/// The values over all rows.
pub fn totals_of(
    alloc: Global,
    rows: &Rows,
    totals: &Totals,
) -> Result<Result<Row, Overflow>, WantOfMemory>
    ensures { IfOk result (λ r. r ≡ each (total_of rows.now) totals.now) }
{
    let mut row = Row::new(alloc);
    for total in totals.as_slice() {
        match one_total(alloc, rows, total)? {
            Ok(value) => row.push(value)?,
            Err(overflow) => return Ok(Err(overflow)),
        }
    }
    Ok(Ok(row))
}

fn one_total(
    alloc: Global,
    rows: &Rows,
    total: &Total,
) -> Result<Result<Value, Overflow>, WantOfMemory>
    ensures { IfOk result (λ r. r ≡ total_of rows.now total.now) }
{
    match total {
        Total::CountAll => Ok(count(rows.len())),
        Total::Count(arg) => match column(alloc, rows, arg)? {
            Ok(values) => Ok(count(count_values(&values))),
            Err(overflow) => Ok(Err(overflow)),
        },
        Total::Sum(arg) => match column(alloc, rows, arg)? {
            Ok(values) => Ok(sum(&values)),
            Err(overflow) => Ok(Err(overflow)),
        },
        Total::Min(arg) => match column(alloc, rows, arg)? {
            Ok(values) => Ok(Ok(least(values))),
            Err(overflow) => Ok(Err(overflow)),
        },
        Total::Max(arg) => match column(alloc, rows, arg)? {
            Ok(values) => Ok(Ok(greatest(values))),
            Err(overflow) => Ok(Err(overflow)),
        },
    }
}

/// The values of an expression in each row.
fn column(
    alloc: Global,
    rows: &Rows,
    expr: &Resolved,
) -> Result<Result<Row, Overflow>, WantOfMemory>
    ensures { IfOk result (λ r. r ≡ column_of rows.now expr.now) }
{
    let mut values = Row::new(alloc);
    for row in rows.as_slice() {
        match expr.value(alloc, row.as_slice())? {
            Ok(value) => values.push(value)?,
            Err(overflow) => return Ok(Err(overflow)),
        }
    }
    Ok(Ok(values))
}

fn count(rows: usize) -> Result<Value, Overflow>
    ensures { result ≡ int_of (pos rows) }
{
    match i64::try_from(rows) {
        Ok(rows) => Ok(Value::Int(rows)),
        Err(_) => Err(Overflow),
    }
}

pub fn is_null(value: &Value) -> bool
    ensures { result ≡ spec.is_null value.now }
{
    match value {
        Value::Null => true,
        Value::Int(_) | Value::Text(_) => false,
    }
}

fn count_values(values: &Row) -> usize
    ensures { result ≡ spec.count_values values.now }
{
    values
        .as_slice()
        .iter()
        .filter(|value| !is_null(value))
        .count()
}

fn all_null(values: &Row) -> bool
    ensures { result ≡ list_all spec.is_null values.now }
{
    values.as_slice().iter().all(|value| is_null(value))
}

/// The exact total, or Overflow where i64 has it not. NULL over nothing.
fn sum(values: &Row) -> Result<Value, Overflow>
    ensures { result ≡ spec.sum_of values.now }
{
    if all_null(values) {
        return Ok(Value::Null);
    }
    match i64::try_from(total(values)) {
        Ok(total) => Ok(Value::Int(total)),
        Err(_) => Err(Overflow),
    }
}

fn total(values: &Row) -> i128
    ensures { result ≡ exact_total values.now }
{
    let mut total = 0i128;
    for value in values.as_slice() {
        total += number(value);
    }
    total
}

fn number(value: &Value) -> i128
    ensures value { result ≡ spec.number value.now }
    ensures low { negsuc 9223372036854775807 ≤ℤ result }
    ensures high { result ≤ℤ pos 9223372036854775807 }
{
    match value {
        Value::Int(number) => i128::from(*number),
        Value::Null | Value::Text(_) => 0,
    }
}

/// The least of the values that are not NULL.
fn least(values: Row) -> Value
    ensures { result ≡ least_of values }
{
    let mut least = Value::Null;
    for value in values.into_vec() {
        least = lesser(least, value);
    }
    least
}

fn lesser(a: Value, b: Value) -> Value
    ensures { result ≡ spec.lesser a b }
{
    if is_null(&a) {
        return b;
    }
    if !is_null(&b) && order(&b, &a).is_lt() {
        b
    } else {
        a
    }
}

/// The greatest of the values that are not NULL.
fn greatest(values: Row) -> Value
    ensures { result ≡ greatest_of values }
{
    let mut greatest = Value::Null;
    for value in values.into_vec() {
        greatest = greater(greatest, value);
    }
    greatest
}

fn greater(a: Value, b: Value) -> Value
    ensures { result ≡ spec.greater a b }
{
    if is_null(&a) {
        return b;
    }
    if !is_null(&b) && order(&b, &a).is_gt() {
        b
    } else {
        a
    }
}
