ghost use Rattle.std.specs.Prelude.{◌≡◌, IfOk, OnOk, is_some};
ghost use Rattle.sql_meaning.specs.Terms.{term, two};
ghost use Rattle.sql_meaning.specs.Ranges.{bound, conjuncts, leading, literal_bound, equal_cells, by_cell};
ghost use Rattle.sql_plan.specs.Ends.{raised, lowered, raised_by, lowered_by, all_say, one, low_end, high_end};

use crate::ends as side;
use crate::ends::{bounds, bytes_of, can_bound, lower, raise, turned};
use crate::places::Keys;
use rm_base::{Bytes, WantOfMemory};
use sql_meaning::Resolved;
use sql_statements::Op;
use sql_values::{Row, Value};
use std::alloc::Global;
use std::marker::Model;

/// The ends of a range so far.
#[derive(Drop)]
pub struct Ends {
    pub low: Option<Bytes>,
    pub high: Option<Bytes>,
}

/// Where a range is sought: of which key, and for which left row, where there is one.
#[derive(Drop)]
pub struct Place<'a> {
    pub keys: Keys,
    pub key: usize,
    pub row: Option<&'a Row>,
}

impl<'a> Model for Place<'a> {
    ghost use Rattle.std.specs.Prelude.{option_map};
    ghost use Rattle.sql_plan.specs.Ends.{Sought};

    ghost Value = { Sought };

    ghost view = { λ place. record { keys = place.keys; key = place.key; row = option_map (λ r. r.now) place.row } };
}

/// Narrows a range by the leading conjuncts of a test. Answers whether each conjunct of the test says
/// something of a key; the first that says nothing ends the leading ones. After want of memory the ends are
/// to be given up.
#[tactic(auto, using(crate::proofs::Leading::stop_says, crate::proofs::Leading::go_says, crate::proofs::Leading::stop_low, crate::proofs::Leading::go_low, crate::proofs::Leading::stop_high, crate::proofs::Leading::go_high))]
pub fn narrow(
    alloc: Global,
    test: &Resolved,
    place: &Place,
    ends: &mut Ends,
) -> Result<bool, WantOfMemory>
    ensures says { IfOk result (λ r. r ≡ all_say place.now.keys (conjuncts (term test.now))) }
    ensures low { OnOk result (ends.new.low ≡ raised_by (low_end place.now) ends.old.low (leading place.now.keys (conjuncts (term test.now)))) }
    ensures high { OnOk result (ends.new.high ≡ lowered_by (high_end place.now) ends.old.high (leading place.now.keys (conjuncts (term test.now)))) }
{
    match test {
        Resolved::Two { op, left, right } => match op {
            Op::And => {
                if !narrow(alloc, left.get(), place, ends)? {
                    return Ok(false);
                }
                narrow(alloc, right.get(), place, ends)
            }
            Op::Or
            | Op::Eq
            | Op::Ne
            | Op::Lt
            | Op::Le
            | Op::Gt
            | Op::Ge
            | Op::Add
            | Op::Sub
            | Op::Mul => { compared(alloc, *op, left.get(), right.get(), place, ends) }
        },
        Resolved::Lit(_)
        | Resolved::Cell(_)
        | Resolved::Neg(_)
        | Resolved::Not(_)
        | Resolved::IsNull { .. } => Ok(false),
    }
}

/// What one conjunct says, which compares two sides.
fn compared(
    alloc: Global,
    op: Op,
    left: &Resolved,
    right: &Resolved,
    place: &Place,
    ends: &mut Ends,
) -> Result<bool, WantOfMemory>
    ensures says { IfOk result (λ r. r ≡ is_some (bound place.now.keys (two op (term left.now) (term right.now)))) }
    ensures low { OnOk result (ends.new.low ≡ raised_by (low_end place.now) ends.old.low (one (bound place.now.keys (two op (term left.now) (term right.now))))) }
    ensures high { OnOk result (ends.new.high ≡ lowered_by (high_end place.now) ends.old.high (one (bound place.now.keys (two op (term left.now) (term right.now))))) }
{
    match left {
        Resolved::Cell(cell) => match right {
            Resolved::Lit(literal) => by_literal(alloc, op, *cell, literal, place, ends),
            Resolved::Cell(other) => by_cells(alloc, op, *cell, *other, place, ends),
            Resolved::Neg(_) | Resolved::Not(_) | Resolved::IsNull { .. } | Resolved::Two { .. } =>
                Ok(false),
        },
        Resolved::Lit(literal) => match right {
            Resolved::Cell(cell) => by_literal(alloc, turned(op), *cell, literal, place, ends),
            Resolved::Lit(_)
            | Resolved::Neg(_)
            | Resolved::Not(_)
            | Resolved::IsNull { .. }
            | Resolved::Two { .. } => Ok(false),
        },
        Resolved::Neg(_) | Resolved::Not(_) | Resolved::IsNull { .. } | Resolved::Two { .. } => Ok(
            false,
        ),
    }
}

fn by_literal(
    alloc: Global,
    op: Op,
    cell: usize,
    literal: &Value,
    place: &Place,
    ends: &mut Ends,
) -> Result<bool, WantOfMemory>
    ensures says { IfOk result (λ r. r ≡ is_some (literal_bound place.now.keys op cell literal.now)) }
    ensures low { OnOk result (ends.new.low ≡ raised_by (low_end place.now) ends.old.low (one (literal_bound place.now.keys op cell literal.now))) }
    ensures high { OnOk result (ends.new.high ≡ lowered_by (high_end place.now) ends.old.high (one (literal_bound place.now.keys op cell literal.now))) }
{
    if !(place.keys.has(cell) && bounds(op) && can_bound(literal)) {
        return Ok(false);
    }
    if cell == place.key {
        if side::is_low(op) {
            raise(&mut ends.low, bytes_of(alloc, literal)?);
        }
        if side::is_high(op) {
            lower(&mut ends.high, bytes_of(alloc, literal)?);
        }
    }
    Ok(true)
}

fn by_cells(
    alloc: Global,
    op: Op,
    cell: usize,
    other: usize,
    place: &Place,
    ends: &mut Ends,
) -> Result<bool, WantOfMemory>
    ensures says { IfOk result (λ r. r ≡ is_some (equal_cells place.now.keys op cell other)) }
    ensures low { OnOk result (ends.new.low ≡ raised_by (low_end place.now) ends.old.low (one (equal_cells place.now.keys op cell other))) }
    ensures high { OnOk result (ends.new.high ≡ lowered_by (high_end place.now) ends.old.high (one (equal_cells place.now.keys op cell other))) }
{
    match op {
        Op::Eq => {}
        Op::Or
        | Op::And
        | Op::Ne
        | Op::Lt
        | Op::Le
        | Op::Gt
        | Op::Ge
        | Op::Add
        | Op::Sub
        | Op::Mul => return Ok(false),
    }
    if place.keys.is_right(cell) && place.keys.is_of_left(other) {
        by_cell(alloc, cell, other, place, ends)?;
        return Ok(true);
    }
    if place.keys.is_right(other) && place.keys.is_of_left(cell) {
        by_cell(alloc, other, cell, place, ends)?;
        return Ok(true);
    }
    Ok(false)
}

/// The right table's key is the left row's cell.
fn by_cell(
    alloc: Global,
    right: usize,
    left: usize,
    place: &Place,
    ends: &mut Ends,
) -> Result<(), WantOfMemory>
    ensures low { OnOk result (ends.new.low ≡ raised ends.old.low (low_end place.now (by_cell right left))) }
    ensures high { OnOk result (ends.new.high ≡ lowered ends.old.high (high_end place.now (by_cell right left))) }
{
    if right != place.key {
        return Ok(());
    }
    let Some(row) = place.row else {
        return Ok(());
    };
    match row.as_slice().get(left) {
        None | Some(Value::Null) => Ok(()),
        Some(value) => {
            let low = bytes_of(alloc, value)?;
            let high = bytes_of(alloc, value)?;
            raise(&mut ends.low, low);
            lower(&mut ends.high, high);
            Ok(())
        }
    }
}
