//! Short cuts of AND and OR, and overflow beside NULL.
use sql_meaning::Resolved;
use sql_statements::Op;
use sql_values::{Overflow, Truth, Value};
use sqlite_items::Boxed;
use std::alloc::Global;
use std::test::Fail;

fn int(number: i64) -> Resolved {
    Resolved::Lit(Value::Int(number))
}

fn null() -> Resolved {
    Resolved::Lit(Value::Null)
}

fn two(alloc: Global, op: Op, left: Resolved, right: Resolved) -> Result<Resolved, Fail> {
    let left = Boxed::new(alloc, left)?;
    let right = Boxed::new(alloc, right)?;
    Ok(Resolved::Two { op, left, right })
}

/// Whether the greatest i64 and one is 1, which overflows.
fn overflows(alloc: Global) -> Result<Resolved, Fail> {
    let sum = two(alloc, Op::Add, int(i64::MAX), int(1))?;
    two(alloc, Op::Eq, sum, int(1))
}

/// A condition of each truth, from left to right: No, Unknown, Yes.
fn condition(alloc: Global, truth: Truth) -> Result<Resolved, Fail> {
    match truth {
        Truth::No => two(alloc, Op::Eq, int(1), int(2)),
        Truth::Unknown => two(alloc, Op::Eq, null(), int(2)),
        Truth::Yes => two(alloc, Op::Lt, int(1), int(2)),
    }
}

#[test]
fn short_cuts(rt: HostRuntime) -> Result<(), Fail> {
    use Truth::{No, Unknown, Yes};
    let alloc = rt.alloc();
    let rows = [
        (Op::And, No, Ok(No)),
        (Op::And, Unknown, Err(Overflow)),
        (Op::And, Yes, Err(Overflow)),
        (Op::Or, Yes, Ok(Yes)),
        (Op::Or, Unknown, Err(Overflow)),
        (Op::Or, No, Err(Overflow)),
    ];
    for (op, left, want) in rows {
        let test = two(alloc, op, condition(alloc, left)?, overflows(alloc)?)?;
        let got = test.truth(alloc, &[])?;
        assert!(rt; got == want, "{op:?} {left:?}");
    }
    Ok(())
}

#[test]
fn null_spares_no_overflow(rt: HostRuntime) -> Result<(), Fail> {
    let alloc = rt.alloc();
    let product = two(alloc, Op::Mul, int(i64::MIN), int(2))?;
    let sum = two(alloc, Op::Add, null(), product)?;
    assert!(rt; sum.value(alloc, &[])?.is_err());
    let cells = two(alloc, Op::Sub, Resolved::Cell(1), Resolved::Cell(0))?;
    let got = cells.value(alloc, &[Value::Int(7), Value::Int(3)])?;
    assert!(rt; matches!(&got, Ok(Value::Int(-4))));
    let got = cells.value(alloc, &[Value::Int(7), Value::Null])?;
    assert!(rt; matches!(&got, Ok(Value::Null)));
    Ok(())
}
