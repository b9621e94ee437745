ghost use Rattle.std.specs.Prelude.{◌≡◌, ◌+ℤ◌, ◌-ℤ◌, ◌*ℤ◌};
ghost use Rattle.sql_values.specs.Arithmetic.{IsNumber, Calculates, calculated};

use crate::values::Value;
use thiserror::Error;

/// The exact result leaves the range of i64.
#[derive(Clone, Copy, Debug, PartialEq, Eq, Error)]
#[error("overflow")]
pub struct Overflow;

/// The sum. NULL where a side is NULL.
pub fn add(a: &Value, b: &Value) -> Result<Value, Overflow>
    requires left { IsNumber a.now }
    requires right { IsNumber b.now }
    ensures exact { Calculates ◌+ℤ◌ a.now b.now result }
    ensures value { result ≡ calculated ◌+ℤ◌ a.now b.now }
{
    match (a, b) {
        (Value::Int(a), Value::Int(b)) => match a.checked_add(*b) {
            Some(sum) => Ok(Value::Int(sum)),
            None => Err(Overflow),
        },
        _ => Ok(Value::Null),
    }
}

/// The difference. NULL where a side is NULL.
pub fn sub(a: &Value, b: &Value) -> Result<Value, Overflow>
    requires left { IsNumber a.now }
    requires right { IsNumber b.now }
    ensures exact { Calculates ◌-ℤ◌ a.now b.now result }
    ensures value { result ≡ calculated ◌-ℤ◌ a.now b.now }
{
    match (a, b) {
        (Value::Int(a), Value::Int(b)) => match a.checked_sub(*b) {
            Some(difference) => Ok(Value::Int(difference)),
            None => Err(Overflow),
        },
        _ => Ok(Value::Null),
    }
}

/// The product. NULL where a side is NULL.
pub fn mul(a: &Value, b: &Value) -> Result<Value, Overflow>
    requires left { IsNumber a.now }
    requires right { IsNumber b.now }
    ensures exact { Calculates ◌*ℤ◌ a.now b.now result }
    ensures value { result ≡ calculated ◌*ℤ◌ a.now b.now }
{
    match (a, b) {
        (Value::Int(a), Value::Int(b)) => match a.checked_mul(*b) {
            Some(product) => Ok(Value::Int(product)),
            None => Err(Overflow),
        },
        _ => Ok(Value::Null),
    }
}
