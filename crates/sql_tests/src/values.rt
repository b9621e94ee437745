//! Truth tables, sums at the ends of an i64, and the order of values.
use rm_base::Text;
use sql_values::{
    Overflow, Sort, Truth, Value, add, and, compare, fits, mul, not, or, order, order_laws, sub,
};
use std::alloc::Global;
use std::cmp::Ordering;
use std::test::Fail;

const MIN: i64 = i64::MIN;

const MAX: i64 = i64::MAX;

fn text(alloc: Global, bytes: &[u8]) -> Result<Text, Fail> {
    Ok(Text::from_vec(Vec::from_slice(alloc, bytes)?))
}

fn int_in(outcome: Result<Value, Overflow>) -> Option<i64> {
    match outcome {
        Ok(Value::Int(number)) => Some(number),
        _ => None,
    }
}

fn is_null(outcome: Result<Value, Overflow>) -> bool {
    matches!(&outcome, Ok(Value::Null))
}

#[test]
fn truth_tables(rt: HostRuntime) {
    use Truth::{No, Unknown, Yes};
    let rows = [
        (Yes, Yes, Yes, Yes),
        (Yes, No, No, Yes),
        (No, Yes, No, Yes),
        (Yes, Unknown, Unknown, Yes),
        (No, No, No, No),
        (No, Unknown, No, Unknown),
        (Unknown, Yes, Unknown, Yes),
        (Unknown, No, No, Unknown),
        (Unknown, Unknown, Unknown, Unknown),
    ];
    for (a, b, conjunction, disjunction) in rows {
        assert_eq!(rt; and(a, b), conjunction, "{a:?} and {b:?}");
        assert_eq!(rt; or(a, b), disjunction, "{a:?} or {b:?}");
    }
    assert_eq!(rt; not(Yes), No);
    assert_eq!(rt; not(No), Yes);
    assert_eq!(rt; not(Unknown), Unknown);
}

#[test]
fn sums_at_the_ends_of_i64(rt: HostRuntime) {
    let rows = [
        (2, 3, Some(5), Some(-1), Some(6)),
        (MAX, 1, None, Some(MAX - 1), Some(MAX)),
        (MIN, 1, Some(MIN + 1), None, Some(MIN)),
        (MIN, -1, None, Some(MIN + 1), None),
        (MAX, MIN, Some(-1), None, None),
        (3037000500, 3037000500, Some(6074001000), Some(0), None),
        (
            3037000499,
            3037000499,
            Some(6074000998),
            Some(0),
            Some(9223372030926249001),
        ),
    ];
    for (a, b, sum, difference, product) in rows {
        let left = Value::Int(a);
        let right = Value::Int(b);
        assert_eq!(rt; int_in(add(&left, &right)), sum, "{a} + {b}");
        assert_eq!(rt; int_in(sub(&left, &right)), difference, "{a} - {b}");
        assert_eq!(rt; int_in(mul(&left, &right)), product, "{a} * {b}");
    }
    assert!(rt; is_null(add(&Value::Null, &Value::Int(MAX))));
    assert!(rt; is_null(sub(&Value::Int(MIN), &Value::Null)));
    assert!(rt; is_null(mul(&Value::Null, &Value::Null)));
}

#[test]
fn comparisons_and_order(rt: HostRuntime) -> Result<(), Fail> {
    let alloc = rt.alloc();
    let numbers = [
        MIN,
        MIN + 1,
        -300,
        -1,
        0,
        1,
        2,
        255,
        256,
        65536,
        MAX - 1,
        MAX,
    ];
    for (i, a) in numbers.iter().enumerate() {
        for (j, b) in numbers.iter().enumerate() {
            let left = Value::Int(*a);
            let right = Value::Int(*b);
            assert_eq!(rt; order(&left, &right), i.cmp(&j), "{a} and {b}");
            assert_eq!(rt; compare(&left, &right), Some(i.cmp(&j)), "{a} and {b}");
        }
    }
    let texts: [&[u8]; 12] = [
        b"",
        b"\x00",
        b"\x00\x00",
        b" ",
        b"A",
        b"Z",
        b"a",
        b"aa",
        b"ab",
        b"b",
        b"\x80",
        b"\xff\x00",
    ];
    for (i, a) in texts.iter().enumerate() {
        for (j, b) in texts.iter().enumerate() {
            let left = Value::Text(text(alloc, a)?);
            let right = Value::Text(text(alloc, b)?);
            assert_eq!(rt; order(&left, &right), i.cmp(&j), "{i} and {j}");
        }
    }
    assert_eq!(rt; order(&Value::Null, &Value::Int(MIN)), Ordering::Less);
    assert_eq!(rt;
        order(&Value::Text(text(alloc, b"")?), &Value::Null),
        Ordering::Greater
    );
    assert_eq!(rt; order(&Value::Null, &Value::Null), Ordering::Equal);
    assert_eq!(rt; compare(&Value::Null, &Value::Null), None);
    assert_eq!(rt; compare(&Value::Int(0), &Value::Null), None);
    assert!(rt; fits(&Value::Null, Sort::Text) && !fits(&Value::Int(0), Sort::Text));
    order_laws();
    Ok(())
}
