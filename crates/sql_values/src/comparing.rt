ghost use Rattle.std.specs.Prelude.{◌≡◌, ◌↔◌, ◌⊎◌, IsNone};
ghost use Rattle.std.specs.Cmp.{IsTotalOrder};
ghost use Rattle.sql_values.specs.Order.{HaveOneSort, comparison, value_cmp, TellsApart, AgreesWithComparison};
ghost use Rattle.sql_values.specs.Order as spec;

use crate::values::Value;
use std::cmp::Ordering;

/// INTs by value and TEXTs by bytes. None exactly where a side is NULL.
pub fn compare(a: &Value, b: &Value) -> Option<Ordering>
    requires { HaveOneSort a.now b.now }
    ensures value { result ≡ comparison a.now b.now }
    ensures null { IsNone result ↔ ((a.now ≡ Value.Null) ⊎ (b.now ≡ Value.Null)) }
{
    match (a, b) {
        (Value::Int(a), Value::Int(b)) => Some(a.cmp(b)),
        (Value::Text(a), Value::Text(b)) => Some(a.as_slice().cmp(b.as_slice())),
        _ => None,
    }
}

/// The order of ORDER BY, ascending: NULL before all else, INTs by value, TEXTs by bytes. An INT stands
/// before a TEXT, which no column mixes.
pub fn order(a: &Value, b: &Value) -> Ordering
    ensures { result ≡ value_cmp a.now b.now }
{
    match (a, b) {
        (Value::Int(a), Value::Int(b)) => a.cmp(b),
        (Value::Text(a), Value::Text(b)) => a.as_slice().cmp(b.as_slice()),
        _ => class(a).cmp(&class(b)),
    }
}

fn class(value: &Value) -> u8
    ensures { result ≡ spec.class value.now }
{
    match value {
        Value::Null => 0,
        Value::Int(_) => 1,
        Value::Text(_) => 2,
    }
}

/// The order of values is total, tells any two values apart, and agrees with comparisons. It does
/// nothing when it is run.
#[tactic(auto, using(crate::proofs::OrderLaws::total, crate::proofs::OrderLaws::tells_apart, crate::proofs::OrderLaws::agrees))]
pub fn order_laws()
    ensures total { IsTotalOrder value_cmp }
    ensures apart { TellsApart }
    ensures comparisons { AgreesWithComparison }
{}
