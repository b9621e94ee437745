//! Expressions as text.

ghost use Rattle.std.specs.Prelude.{◌≡◌, [], ◌∷◌, IfOk};
ghost use Rattle.sql_front.specs.Printed as spec;
ghost use Rattle.sql_front.specs.Printed.{written};

use crate::spelling::{integer, name, sign, text, word};
use rm_base::{Name, Text, WantOfMemory};
use sql_statements::{Expr, Op};
use sql_values::Value;
use sql_words::{Sign, Word};
use std::alloc::Global;

fn value(alloc: Global, out: &mut Text, value: &Value) -> Result<(), WantOfMemory>
    ensures { IfOk result (λ _. out.new ≡ written out.old (spec.value_symbols value.now)) }
{
    match value {
        Value::Null => word(out, Word::Null),
        Value::Int(number) => integer(alloc, out, *number),
        Value::Text(content) => text(out, content.as_slice()),
    }
}

/// A column, with its table where it has one.
pub fn column(out: &mut Text, table: &Option<Name>, column: &Name) -> Result<(), WantOfMemory>
    ensures { IfOk result (λ _. out.new ≡ written out.old (spec.column_symbols table.now column.now)) }
{
    if let Some(table) = table {
        name(out, table)?;
        sign(out, Sign::Dot)?;
        return name(out, column);
    }
    name(out, column)
}

#[tactic(auto, unfolding(crate::specs::Printed::operator_symbol))]
fn operator(out: &mut Text, op: Op) -> Result<(), WantOfMemory>
    ensures { IfOk result (λ _. out.new ≡ written out.old (spec.operator_symbol op ∷ [])) }
{
    match op {
        Op::Or => word(out, Word::Or),
        Op::And => word(out, Word::And),
        Op::Eq => sign(out, Sign::Eq),
        Op::Ne => sign(out, Sign::Ne),
        Op::Lt => sign(out, Sign::Lt),
        Op::Le => sign(out, Sign::Le),
        Op::Gt => sign(out, Sign::Gt),
        Op::Ge => sign(out, Sign::Ge),
        Op::Add => sign(out, Sign::Plus),
        Op::Sub => sign(out, Sign::Minus),
        Op::Mul => sign(out, Sign::Star),
    }
}

fn is_column(expr: &Expr) -> bool
    ensures { result ≡ spec.is_column expr.now }
{
    match expr {
        Expr::Col { .. } => true,
        Expr::Lit(_) => false,
        Expr::Neg(_) => false,
        Expr::Not(_) => false,
        Expr::IsNull { .. } => false,
        Expr::Two { .. } => false,
    }
}

fn is_plain(expr: &Expr) -> bool
    ensures { result ≡ spec.is_plain expr.now }
{
    match expr {
        Expr::Col { .. } => true,
        Expr::Lit(_) => true,
        Expr::Neg(_) => false,
        Expr::Not(_) => false,
        Expr::IsNull { .. } => false,
        Expr::Two { .. } => false,
    }
}

fn open(out: &mut Text, brackets: bool) -> Result<(), WantOfMemory>
    ensures { IfOk result (λ _. out.new ≡ written out.old (spec.opening brackets)) }
{
    if brackets {
        sign(out, Sign::Open)
    } else {
        Ok(())
    }
}

fn close(out: &mut Text, brackets: bool) -> Result<(), WantOfMemory>
    ensures { IfOk result (λ _. out.new ≡ written out.old (spec.closing brackets)) }
{
    if brackets {
        sign(out, Sign::Close)
    } else {
        Ok(())
    }
}

fn null_test(out: &mut Text, not: bool) -> Result<(), WantOfMemory>
    ensures { IfOk result (λ _. out.new ≡ written out.old (spec.null_symbols not)) }
{
    word(out, Word::Is)?;
    if not {
        word(out, Word::Not)?;
        return word(out, Word::Null);
    }
    word(out, Word::Null)
}

/// An expression, with brackets round it or without.
#[cycle(printed)]
#[tactic(auto, using(crate::proofs::Writing::written_append))]
fn enclosed(
    alloc: Global,
    out: &mut Text,
    printed: &Expr,
    brackets: bool,
) -> Result<(), WantOfMemory>
    ensures { IfOk result (λ _. out.new ≡ written out.old (spec.enclosed brackets (spec.expr_symbols printed.now))) }
{
    open(out, brackets)?;
    expr(alloc, out, printed)?;
    close(out, brackets)
}

/// An expression, without brackets round it.
#[cycle(printed)]
#[tactic(auto, using(crate::proofs::Writing::written_append))]
pub fn expr(alloc: Global, out: &mut Text, printed: &Expr) -> Result<(), WantOfMemory>
    ensures { IfOk result (λ _. out.new ≡ written out.old (spec.expr_symbols printed.now)) }
{
    match printed {
        Expr::Lit(literal) => value(alloc, out, literal),
        Expr::Col { table, name } => column(out, table, name),
        Expr::Neg(arg) => {
            sign(out, Sign::Minus)?;
            enclosed(alloc, out, arg.get(), !is_column(arg.get()))
        }
        Expr::Not(arg) => {
            word(out, Word::Not)?;
            enclosed(alloc, out, arg.get(), !is_plain(arg.get()))
        }
        Expr::IsNull { arg, not } => {
            enclosed(alloc, out, arg.get(), !is_plain(arg.get()))?;
            null_test(out, *not)
        }
        Expr::Two { op, left, right } => {
            enclosed(alloc, out, left.get(), !is_plain(left.get()))?;
            operator(out, *op)?;
            enclosed(alloc, out, right.get(), !is_plain(right.get()))
        }
    }
}
