ghost use Rattle.std.specs.Prelude.{◌≡◌, IfOk, Ok, option_map};
ghost use Rattle.sql_meaning.specs.Evaluation.{value_in, truth_in, test_in};
ghost use Rattle.sql_meaning.specs.Evaluation as spec;
ghost use Rattle.sql_meaning.specs.Terms.{term};

use crate::resolved::Resolved;
use rm_base::{Duplicate, WantOfMemory};
use sql_statements::Op;
use sql_values::{Overflow, Truth, Value, add, and, compare, mul, not, or, sub};
use std::alloc::Global;
use std::cmp::Ordering;

impl Resolved {
    /// What the expression gives in the row. A truth gives NULL, which no statement of right sorts asks.
    pub fn value(
        &self,
        alloc: Global,
        row: &[Value],
    ) -> Result<Result<Value, Overflow>, WantOfMemory>
        ensures { IfOk result (λ r. r ≡ value_in row.now (term self.now)) }
    {
        match self {
            Resolved::Lit(value) => Ok(Ok(value.copy(alloc)?)),
            Resolved::Cell(place) => cell(alloc, row, *place),
            Resolved::Neg(arg) => match arg.get().value(alloc, row)? {
                Ok(value) => Ok(computed(Op::Sub, &Value::Int(0), &value)),
                Err(overflow) => Ok(Err(overflow)),
            },
            Resolved::Not(_) | Resolved::IsNull { .. } => Ok(Ok(Value::Null)),
            Resolved::Two { op, left, right } => {
                let left = match left.get().value(alloc, row)? {
                    Ok(value) => value,
                    Err(overflow) => return Ok(Err(overflow)),
                };
                match right.get().value(alloc, row)? {
                    Ok(value) => Ok(computed(*op, &left, &value)),
                    Err(overflow) => Ok(Err(overflow)),
                }
            }
        }
    }

    /// The truth of the condition in the row. A value is Unknown: NULL is the one that stands for a truth.
    pub fn truth(
        &self,
        alloc: Global,
        row: &[Value],
    ) -> Result<Result<Truth, Overflow>, WantOfMemory>
        ensures { IfOk result (λ r. r ≡ truth_in row.now (term self.now)) }
    {
        match self {
            Resolved::Lit(_) | Resolved::Cell(_) | Resolved::Neg(_) => Ok(Ok(Truth::Unknown)),
            Resolved::Not(arg) => match arg.get().truth(alloc, row)? {
                Ok(truth) => Ok(Ok(not(truth))),
                Err(overflow) => Ok(Err(overflow)),
            },
            Resolved::IsNull { arg, not } => match arg.get().value(alloc, row)? {
                Ok(value) => Ok(Ok(null_truth(*not, &value))),
                Err(overflow) => Ok(Err(overflow)),
            },
            Resolved::Two {
                op: Op::And,
                left,
                right,
            } => match left.get().truth(alloc, row)? {
                Ok(Truth::No) => Ok(Ok(Truth::No)),
                Ok(first) => match right.get().truth(alloc, row)? {
                    Ok(second) => Ok(Ok(and(first, second))),
                    Err(overflow) => Ok(Err(overflow)),
                },
                Err(overflow) => Ok(Err(overflow)),
            },
            Resolved::Two {
                op: Op::Or,
                left,
                right,
            } => match left.get().truth(alloc, row)? {
                Ok(Truth::Yes) => Ok(Ok(Truth::Yes)),
                Ok(first) => match right.get().truth(alloc, row)? {
                    Ok(second) => Ok(Ok(or(first, second))),
                    Err(overflow) => Ok(Err(overflow)),
                },
                Err(overflow) => Ok(Err(overflow)),
            },
            Resolved::Two { op, left, right } => {
                let left = match left.get().value(alloc, row)? {
                    Ok(value) => value,
                    Err(overflow) => return Ok(Err(overflow)),
                };
                match right.get().value(alloc, row)? {
                    Ok(value) => Ok(Ok(compared(*op, &left, &value))),
                    Err(overflow) => Ok(Err(overflow)),
                }
            }
        }
    }
}

/// The truth of a statement's test in a row. Without one each row passes.
pub fn test_truth(
    alloc: Global,
    test: &Option<Resolved>,
    row: &[Value],
) -> Result<Result<Truth, Overflow>, WantOfMemory>
    ensures { IfOk result (λ r. r ≡ test_in row.now (option_map term test.now)) }
{
    match test {
        None => Ok(Ok(Truth::Yes)),
        Some(test) => test.truth(alloc, row),
    }
}

fn compared(op: Op, left: &Value, right: &Value) -> Truth
    ensures { result ≡ spec.compared op left.now right.now }
{
    match (left, right) {
        (Value::Int(_), Value::Int(_)) | (Value::Text(_), Value::Text(_)) => {
            match compare(left, right) {
                Some(order) => truth_of(holds(op, order)),
                None => Truth::Unknown,
            }
        }
        _ => Truth::Unknown,
    }
}

fn holds(op: Op, order: Ordering) -> bool
    ensures { result ≡ spec.holds op order }
{
    match op {
        Op::Eq => order.is_eq(),
        Op::Ne => order.is_ne(),
        Op::Lt => order.is_lt(),
        Op::Le => order.is_le(),
        Op::Gt => order.is_gt(),
        Op::Ge => order.is_ge(),
        Op::Or | Op::And | Op::Add | Op::Sub | Op::Mul => false,
    }
}

fn truth_of(holds: bool) -> Truth
    ensures { result ≡ spec.truth_of holds }
{
    if holds { Truth::Yes } else { Truth::No }
}

fn null_truth(not: bool, value: &Value) -> Truth
    ensures { result ≡ spec.null_truth not value.now }
{
    match value {
        Value::Null => truth_of(!not),
        Value::Int(_) | Value::Text(_) => truth_of(not),
    }
}

fn cell(alloc: Global, row: &[Value], place: usize) -> Result<Result<Value, Overflow>, WantOfMemory>
    ensures { IfOk result (λ r. r ≡ Ok (spec.cell_of row.now place)) }
{
    match row.get(place) {
        Some(value) => Ok(Ok(value.copy(alloc)?)),
        None => Ok(Ok(Value::Null)),
    }
}

fn computed(op: Op, left: &Value, right: &Value) -> Result<Value, Overflow>
    ensures { result ≡ spec.computed op left.now right.now }
{
    match (left, right) {
        (Value::Int(_), Value::Int(_)) => match op {
            Op::Add => add(left, right),
            Op::Sub => sub(left, right),
            Op::Mul => mul(left, right),
            _ => Ok(Value::Null),
        },
        _ => Ok(Value::Null),
    }
}
