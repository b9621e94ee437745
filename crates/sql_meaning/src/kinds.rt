ghost use Rattle.std.specs.Prelude.{◌≡◌};
ghost use Rattle.sql_meaning.specs.Kinds.{kind};
ghost use Rattle.sql_meaning.specs.Kinds as spec;
ghost use Rattle.sql_meaning.specs.Terms.{term};

use crate::fields::Field;
use crate::resolved::Resolved;
use sql_statements::Op;
use sql_values::{Sort, Value};

/// What an expression gives: a NULL, which fits each place, an INT, a TEXT or a truth.
#[derive(Clone, Copy, Debug, PartialEq, Eq)]
pub enum Kind {
    Null,
    Int,
    Text,
    Truth,
}

/// The kind of the expression, or None where an operand has not the sort of its place.
pub fn kind_of(fields: &[Field], expr: &Resolved) -> Option<Kind>
    ensures { result ≡ kind fields.now (term expr.now) }
{
    match expr {
        Resolved::Lit(value) => Some(value_kind(value)),
        Resolved::Cell(place) => cell_kind(fields, *place),
        Resolved::Neg(arg) => negated(kind_of(fields, arg.get())),
        Resolved::Not(arg) => denied(kind_of(fields, arg.get())),
        Resolved::IsNull { arg, .. } => tested(kind_of(fields, arg.get())),
        Resolved::Two { op, left, right } => {
            let left = kind_of(fields, left.get());
            let right = kind_of(fields, right.get());
            joined(*op, left, right)
        }
    }
}

fn value_kind(value: &Value) -> Kind
    ensures { result ≡ spec.value_kind value.now }
{
    match value {
        Value::Null => Kind::Null,
        Value::Int(_) => Kind::Int,
        Value::Text(_) => Kind::Text,
    }
}

fn sort_kind(sort: Sort) -> Kind
    ensures { result ≡ spec.sort_kind sort }
{
    match sort {
        Sort::Int => Kind::Int,
        Sort::Text => Kind::Text,
    }
}

fn cell_kind(fields: &[Field], place: usize) -> Option<Kind>
    ensures { result ≡ spec.cell_kind fields.now place }
{
    match fields.get(place) {
        Some(field) => Some(sort_kind(field.sort)),
        None => None,
    }
}

/// NULL or an INT.
pub fn is_number(kind: Kind) -> bool
    ensures { result ≡ spec.is_number kind }
{
    match kind {
        Kind::Null | Kind::Int => true,
        Kind::Text | Kind::Truth => false,
    }
}

fn is_text(kind: Kind) -> bool
    ensures { result ≡ spec.is_text kind }
{
    match kind {
        Kind::Null | Kind::Text => true,
        Kind::Int | Kind::Truth => false,
    }
}

/// NULL or a truth.
pub fn is_truth(kind: Kind) -> bool
    ensures { result ≡ spec.is_truth kind }
{
    match kind {
        Kind::Null | Kind::Truth => true,
        Kind::Int | Kind::Text => false,
    }
}

/// NULL, an INT or a TEXT.
pub fn is_value(kind: Kind) -> bool
    ensures { result ≡ spec.is_value kind }
{
    match kind {
        Kind::Null | Kind::Int | Kind::Text => true,
        Kind::Truth => false,
    }
}

/// Whether a column of the sort takes values of the kind.
pub fn takes(sort: Sort, kind: Kind) -> bool
    ensures { result ≡ spec.takes sort kind }
{
    match sort {
        Sort::Int => is_number(kind),
        Sort::Text => is_text(kind),
    }
}

fn negated(arg: Option<Kind>) -> Option<Kind>
    ensures { result ≡ spec.negated arg }
{
    match arg {
        Some(kind) if is_number(kind) => Some(Kind::Int),
        _ => None,
    }
}

fn denied(arg: Option<Kind>) -> Option<Kind>
    ensures { result ≡ spec.denied arg }
{
    match arg {
        Some(kind) if is_truth(kind) => Some(Kind::Truth),
        _ => None,
    }
}

fn tested(arg: Option<Kind>) -> Option<Kind>
    ensures { result ≡ spec.tested arg }
{
    match arg {
        Some(kind) if is_value(kind) => Some(Kind::Truth),
        _ => None,
    }
}

fn joined(op: Op, left: Option<Kind>, right: Option<Kind>) -> Option<Kind>
    ensures { result ≡ spec.joined op left right }
{
    match (left, right) {
        (Some(left), Some(right)) => joined_kinds(op, left, right),
        _ => None,
    }
}

fn joined_kinds(op: Op, left: Kind, right: Kind) -> Option<Kind>
    ensures { result ≡ spec.joined_kinds op left right }
{
    match op {
        Op::Or | Op::And if is_truth(left) && is_truth(right) => Some(Kind::Truth),
        Op::Add | Op::Sub | Op::Mul if is_number(left) && is_number(right) => Some(Kind::Int),
        Op::Eq | Op::Ne | Op::Lt | Op::Le | Op::Gt | Op::Ge if are_comparable(left, right) => {
            Some(Kind::Truth)
        }
        _ => None,
    }
}

fn are_comparable(left: Kind, right: Kind) -> bool
    ensures { result ≡ spec.are_comparable left right }
{
    (is_number(left) && is_number(right)) || (is_text(left) && is_text(right))
}
