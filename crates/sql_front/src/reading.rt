//! Expressions, by levels.

ghost use Rattle.std.specs.Prelude.{◌≡◌, ◌<◌, IfOk, IfErr};
ghost use Rattle.sql_front.specs.Input.{Reads};
ghost use Rattle.sql_front.specs.ReadExpr as spec;

use crate::input::Input;
use crate::levels::Level;
use crate::stopping::Stop;
use rm_base::{MAX_STATEMENT_TOKENS, Name};
use sql_statements::{Expr, Op};
use sql_values::Value;
use sql_words::{Class, Sign, Word};
use sqlite_items::Boxed;
use std::alloc::Global;

#[tactic(auto, unfolding(crate::specs::ReadExpr::operator))]
fn operator(input: &Input<'_, '_>, level: Level) -> Option<Op>
    ensures { result ≡ spec.operator level input.now }
{
    match level {
        Level::Or => input.sees(Class::Reserved(Word::Or)).then_some(Op::Or),
        Level::And => input.sees(Class::Reserved(Word::And)).then_some(Op::And),
        Level::Sum => {
            if input.sees(Class::Sign(Sign::Plus)) {
                Some(Op::Add)
            } else {
                input.sees(Class::Sign(Sign::Minus)).then_some(Op::Sub)
            }
        }
        Level::Product => input.sees(Class::Sign(Sign::Star)).then_some(Op::Mul),
    }
}

#[tactic(auto, unfolding(crate::specs::ReadExpr::comparison))]
fn comparison(input: &Input<'_, '_>) -> Option<Op>
    ensures { result ≡ spec.comparison input.now }
{
    if input.sees(Class::Sign(Sign::Eq)) {
        return Some(Op::Eq);
    }
    if input.sees(Class::Sign(Sign::Ne)) {
        return Some(Op::Ne);
    }
    if input.sees(Class::Sign(Sign::Lt)) {
        return Some(Op::Lt);
    }
    if input.sees(Class::Sign(Sign::Le)) {
        return Some(Op::Le);
    }
    if input.sees(Class::Sign(Sign::Gt)) {
        return Some(Op::Gt);
    }
    input.sees(Class::Sign(Sign::Ge)).then_some(Op::Ge)
}

fn two(alloc: Global, op: Op, left: Expr, right: Expr) -> Result<Expr, Stop>
    ensures made { IfOk result (λ e. e ≡ Expr.Two op left right) }
    ensures memory { IfErr result (λ e. e ≡ Stop.Memory) }
{
    let left = Boxed::new(alloc, left)?;
    let right = Boxed::new(alloc, right)?;
    Ok(Expr::Two { op, left, right })
}

/// A column, with its table and a dot where these are written.
#[tactic(auto, unfolding(crate::specs::ReadExpr::column))]
pub fn column(alloc: Global, input: &mut Input<'_, '_>) -> Result<(Option<Name>, Name), Stop>
    ensures { Reads (spec.column input.old) result input.new }
{
    let first = input.name(alloc)?;
    if input.eat(Class::Sign(Sign::Dot)) {
        let second = input.name(alloc)?;
        Ok((Some(first), second))
    } else {
        Ok((None, first))
    }
}

#[tactic(auto, unfolding(crate::specs::ReadExpr::leaf))]
fn leaf(alloc: Global, input: &mut Input<'_, '_>) -> Result<Expr, Stop>
    ensures { Reads (spec.leaf input.old) result input.new }
{
    if input.sees(Class::Number) {
        let number = input.small_number()?;
        return Ok(Expr::Lit(Value::Int(number)));
    }
    if input.sees(Class::Text) {
        let text = input.text(alloc)?;
        return Ok(Expr::Lit(Value::Text(text)));
    }
    if input.sees(Class::Reserved(Word::Null)) {
        input.step();
        return Ok(Expr::Lit(Value::Null));
    }
    let (table, name) = column(alloc, input)?;
    Ok(Expr::Col { table, name })
}

#[tactic(auto, unfolding(crate::specs::ReadExpr::null_test))]
fn null_test(alloc: Global, input: &mut Input<'_, '_>, left: Expr) -> Result<Expr, Stop>
    ensures { Reads (spec.null_test left input.old) result input.new }
{
    let not = input.eat(Class::Reserved(Word::Not));
    input.expect(Class::Reserved(Word::Null))?;
    let arg = Boxed::new(alloc, left)?;
    Ok(Expr::IsNull { arg, not })
}

/// Operators of one level with an operand before and behind each. `room` is no less than the tokens that
/// are left.
#[cycle(expression)]
#[tactic(auto, unfolding(crate::specs::ReadExpr::chain))]
fn chain(alloc: Global, input: &mut Input<'_, '_>, level: Level, room: usize) -> Result<Expr, Stop>
    ensures { Reads (spec.chain level (spec.operand level room) room input.old) result input.new }
{
    let mut left = operand(alloc, input, level, room)?;
    for _turn in 0..room {
        let Some(op) = operator(input, level) else {
            return Ok(left);
        };
        input.step();
        let right = operand(alloc, input, level, room)?;
        left = two(alloc, op, left, right)?;
    }
    Ok(left)
}

/// What stands between the operators of the level.
#[cycle(expression)]
fn operand(
    alloc: Global,
    input: &mut Input<'_, '_>,
    level: Level,
    room: usize,
) -> Result<Expr, Stop>
    ensures { Reads (spec.operand level room input.old) result input.new }
{
    match level {
        Level::Or => chain(alloc, input, Level::And, room),
        Level::And => negation(alloc, input, room),
        Level::Sum => chain(alloc, input, Level::Product, room),
        Level::Product => unit(alloc, input, room),
    }
}

/// NOT, any number of times, before a test.
#[cycle(expression)]
#[tactic(auto, unfolding(crate::specs::ReadExpr::negation, crate::specs::ReadExpr::negation_of))]
fn negation(alloc: Global, input: &mut Input<'_, '_>, room: usize) -> Result<Expr, Stop>
    ensures { Reads (spec.negation room input.old) result input.new }
{
    if room == 0 {
        return Err(Stop::Refused);
    }
    if !input.sees(Class::Reserved(Word::Not)) {
        return test(alloc, input, room);
    }
    input.step();
    let arg = negation(alloc, input, room - 1)?;
    Ok(Expr::Not(Boxed::new(alloc, arg)?))
}

/// A sum, and perhaps a comparison with another or IS NULL.
#[cycle(expression)]
#[tactic(auto, unfolding(crate::specs::ReadExpr::test_of))]
fn test(alloc: Global, input: &mut Input<'_, '_>, room: usize) -> Result<Expr, Stop>
    ensures { Reads (spec.test room input.old) result input.new }
{
    let left = chain(alloc, input, Level::Sum, room)?;
    if let Some(op) = comparison(input) {
        input.step();
        let right = chain(alloc, input, Level::Sum, room)?;
        return two(alloc, op, left, right);
    }
    if !input.sees(Class::Reserved(Word::Is)) {
        return Ok(left);
    }
    input.step();
    null_test(alloc, input, left)
}

/// A literal, a column, an expression in brackets, or one of these behind minuses.
#[cycle(expression)]
#[tactic(auto, unfolding(crate::specs::ReadExpr::unit, crate::specs::ReadExpr::unit_of))]
fn unit(alloc: Global, input: &mut Input<'_, '_>, room: usize) -> Result<Expr, Stop>
    ensures { Reads (spec.unit room input.old) result input.new }
{
    if room == 0 {
        return Err(Stop::Refused);
    }
    if input.sees(Class::Sign(Sign::Minus)) {
        input.step();
        return minus(alloc, input, room - 1);
    }
    if input.sees(Class::Sign(Sign::Open)) {
        input.step();
        return group(alloc, input, room - 1);
    }
    leaf(alloc, input)
}

/// What stands behind a minus. Directly before a number it makes a negative literal.
#[cycle(expression)]
#[tactic(auto, unfolding(crate::specs::ReadExpr::minus_of))]
fn minus(alloc: Global, input: &mut Input<'_, '_>, room: usize) -> Result<Expr, Stop>
    ensures { Reads (spec.minus_of (spec.unit room) input.old) result input.new }
{
    if input.sees(Class::Number) {
        let number = input.negative_number()?;
        return Ok(Expr::Lit(Value::Int(number)));
    }
    let arg = unit(alloc, input, room)?;
    Ok(Expr::Neg(Boxed::new(alloc, arg)?))
}

/// What stands behind an opening bracket, with the closing one.
#[cycle(expression)]
#[tactic(auto, unfolding(crate::specs::ReadExpr::group_of))]
fn group(alloc: Global, input: &mut Input<'_, '_>, room: usize) -> Result<Expr, Stop>
    ensures { Reads (spec.group_of (spec.whole room) input.old) result input.new }
{
    let inside = whole(alloc, input, room)?;
    input.expect(Class::Sign(Sign::Close))?;
    Ok(inside)
}

/// An expression. `room` is no less than the tokens that are left.
#[cycle(expression)]
#[tactic(auto, unfolding(crate::specs::ReadExpr::whole))]
pub fn whole(alloc: Global, input: &mut Input<'_, '_>, room: usize) -> Result<Expr, Stop>
    ensures { Reads (spec.whole room input.old) result input.new }
{
    if room == 0 {
        return Err(Stop::Refused);
    }
    chain(alloc, input, Level::Or, room)
}

/// Whether the next token goes on with an expression.
#[tactic(auto, unfolding(crate::specs::ReadExpr::goes_on))]
fn goes_on(input: &Input<'_, '_>) -> bool
    ensures { result ≡ spec.goes_on input.now }
{
    operator(input, Level::Or).is_some()
        || operator(input, Level::And).is_some()
        || comparison(input).is_some()
        || input.sees(Class::Reserved(Word::Is))
        || operator(input, Level::Sum).is_some()
        || operator(input, Level::Product).is_some()
        || input.sees(Class::Sign(Sign::Dot))
}

/// An expression of at most 256 tokens. The 257th is refused where it would go on with one.
pub fn expression(alloc: Global, input: &mut Input<'_, '_>) -> Result<Expr, Stop>
    ensures { Reads (spec.expression input.old) result input.new }
{
    let mut window = input.window(MAX_STATEMENT_TOKENS);
    let len = window.len();
    let read = whole(alloc, &mut window, MAX_STATEMENT_TOKENS);
    let left = window.len();
    input.pass(len.saturating_sub(left));
    match read {
        Ok(expr) => {
            if left == 0 && goes_on(input) {
                return Err(Stop::Refused);
            }
            Ok(expr)
        }
        Err(stop) => Err(stop),
    }
}
