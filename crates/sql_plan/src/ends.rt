ghost use Rattle.std.specs.Prelude.{◌≡◌, ◌≢◌, Some, IfOk};
ghost use Rattle.row_codec.specs.Keys.{key_bytes};
ghost use Rattle.sql_meaning.specs.Ranges as spec;
ghost use Rattle.sql_plan.specs.Ends.{raised, lowered};
ghost use Rattle.sql_values.specs.declared.values.Value.TheVariants as value;

use rm_base::{Bytes, Duplicate, WantOfMemory};
use row_codec::key_of;
use sql_statements::Op;
use sql_values::Value;
use std::alloc::Global;
use std::cmp::Ordering;

/// Raises a low end to the key, where the key is greater.
pub fn raise(low: &mut Option<Bytes>, key: Bytes)
    ensures { low.new ≡ raised low.old (Some key) }
{
    let stays = match low {
        Some(low) => low.as_slice().cmp(key.as_slice()) != Ordering::Less,
        None => false,
    };
    if !stays {
        *low = Some(key);
    }
}

/// Lowers a high end to the key, where the key is lesser.
pub fn lower(high: &mut Option<Bytes>, key: Bytes)
    ensures { high.new ≡ lowered high.old (Some key) }
{
    let stays = match high {
        Some(high) => key.as_slice().cmp(high.as_slice()) != Ordering::Less,
        None => false,
    };
    if !stays {
        *high = Some(key);
    }
}

/// Whether a low end is above a high one.
pub fn is_above(low: &Option<Bytes>, high: &Option<Bytes>) -> bool
    ensures { result ≡ spec.is_above low.now high.now }
{
    match low {
        None => false,
        Some(low) => match high {
            None => false,
            Some(high) => high.as_slice().cmp(low.as_slice()) == Ordering::Less,
        },
    }
}

/// The bytes of a key, whatever their number.
#[tactic(auto, using(crate::proofs::Keys::int_key_is_short))]
pub fn bytes_of(alloc: Global, key: &Value) -> Result<Bytes, WantOfMemory>
    requires { key.now ≢ value.Null }
    ensures { IfOk result (λ bytes. bytes ≡ key_bytes key.now) }
{
    match key {
        Value::Null => unreachable!(),
        Value::Text(text) => text.copy(alloc),
        Value::Int(_) => match key_of(alloc, key)? {
            Ok(bytes) => Ok(bytes),
            Err(_) => unreachable!(),
        },
    }
}

/// = > >=
pub fn is_low(op: Op) -> bool
    ensures { result ≡ spec.is_low op }
{
    match op {
        Op::Eq | Op::Gt | Op::Ge => true,
        Op::Or | Op::And | Op::Ne | Op::Lt | Op::Le | Op::Add | Op::Sub | Op::Mul => false,
    }
}

/// = < <=
pub fn is_high(op: Op) -> bool
    ensures { result ≡ spec.is_high op }
{
    match op {
        Op::Eq | Op::Lt | Op::Le => true,
        Op::Or | Op::And | Op::Ne | Op::Gt | Op::Ge | Op::Add | Op::Sub | Op::Mul => false,
    }
}

/// = < <= > >=
pub fn bounds(op: Op) -> bool
    ensures { result ≡ spec.bounds op }
{
    match op {
        Op::Eq | Op::Lt | Op::Le | Op::Gt | Op::Ge => true,
        Op::Or | Op::And | Op::Ne | Op::Add | Op::Sub | Op::Mul => false,
    }
}

/// The comparison with its sides the other way round.
pub fn turned(op: Op) -> Op
    ensures { result ≡ spec.turned op }
{
    match op {
        Op::Lt => Op::Gt,
        Op::Le => Op::Ge,
        Op::Gt => Op::Lt,
        Op::Ge => Op::Le,
        Op::Eq | Op::Ne | Op::Or | Op::And | Op::Add | Op::Sub | Op::Mul => op,
    }
}

/// Whether a literal can be the end of a range: it is not NULL.
pub fn can_bound(literal: &Value) -> bool
    ensures { result ≡ spec.can_bound literal.now }
{
    match literal {
        Value::Null => false,
        Value::Int(number) => {
            let _number = *number;
            true
        }
        Value::Text(_) => true,
    }
}
