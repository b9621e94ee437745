//! SELECT.

ghost use Rattle.std.specs.Prelude.{◌≡◌};
ghost use Rattle.sql_front.specs.Conditions as conditions;
ghost use Rattle.sql_front.specs.Input.{Reads};
ghost use Rattle.sql_front.specs.ReadStmt as spec;

use crate::changes::condition;
use crate::input::Input;
use crate::lists::{Item, list};
use crate::reading::{column, expression};
use crate::stopping::Stop;
use rm_base::{Items, Name};
use sql_statements::{Agg, Expr, Join, OrderKey, Orders, Select, Selected, Stmt};
use sql_words::{Class, Sign, Word};
use std::alloc::Global;

/// An expression in brackets.
#[tactic(auto, unfolding(crate::specs::ReadStmt::bracketed))]
fn bracketed(alloc: Global, input: &mut Input<'_, '_>) -> Result<Expr, Stop>
    ensures { Reads (spec.bracketed input.old) result input.new }
{
    input.expect(Class::Sign(Sign::Open))?;
    let arg = expression(alloc, input)?;
    input.expect(Class::Sign(Sign::Close))?;
    Ok(arg)
}

/// What stands behind COUNT.
#[tactic(auto, unfolding(crate::specs::ReadStmt::counted))]
fn counted(alloc: Global, input: &mut Input<'_, '_>) -> Result<Agg, Stop>
    ensures { Reads (spec.counted input.old) result input.new }
{
    input.expect(Class::Sign(Sign::Open))?;
    if input.eat(Class::Sign(Sign::Star)) {
        input.expect(Class::Sign(Sign::Close))?;
        return Ok(Agg::CountAll);
    }
    let arg = expression(alloc, input)?;
    input.expect(Class::Sign(Sign::Close))?;
    Ok(Agg::Count(arg))
}

impl Item for Agg {
    ghost use Rattle.sql_front.specs.ReadStmt as spec;

    ghost reader = { spec.aggregate };

    #[tactic(auto, unfolding(crate::specs::ReadStmt::aggregate))]
    fn read(alloc: Global, input: &mut Input<'_, '_>, _before: &[Agg]) -> Result<Agg, Stop> {
        if input.eat(Class::Reserved(Word::Count)) {
            return counted(alloc, input);
        }
        if input.eat(Class::Reserved(Word::Sum)) {
            return Ok(Agg::Sum(bracketed(alloc, input)?));
        }
        if input.eat(Class::Reserved(Word::Min)) {
            return Ok(Agg::Min(bracketed(alloc, input)?));
        }
        input.expect(Class::Reserved(Word::Max))?;
        Ok(Agg::Max(bracketed(alloc, input)?))
    }
}

#[tactic(auto, unfolding(crate::specs::ReadStmt::sees_aggregate))]
fn sees_aggregate(input: &Input<'_, '_>) -> bool
    ensures { result ≡ spec.sees_aggregate input.now }
{
    input.sees(Class::Reserved(Word::Count))
        || input.sees(Class::Reserved(Word::Sum))
        || input.sees(Class::Reserved(Word::Min))
        || input.sees(Class::Reserved(Word::Max))
}

/// What stands between SELECT and FROM.
#[tactic(auto, unfolding(crate::specs::ReadStmt::selected_items, crate::specs::ReadStmt::answers))]
fn selected_items(alloc: Global, input: &mut Input<'_, '_>) -> Result<Selected, Stop>
    ensures { Reads (spec.selected_items input.old) result input.new }
{
    if input.eat(Class::Sign(Sign::Star)) {
        return Ok(Selected::Star);
    }
    if sees_aggregate(input) {
        let items = list::<Agg>(alloc, input)?;
        return Ok(Selected::Aggs(items));
    }
    let items = list::<Expr>(alloc, input)?;
    Ok(Selected::Plain(items))
}

#[tactic(auto, unfolding(crate::specs::Conditions::is_other))]
fn is_other(left: &Name, right: &Name) -> bool
    ensures { result ≡ conditions.is_other left.now right.now }
{
    left.as_slice() != right.as_slice()
}

/// JOIN with its table and its condition, or nothing.
#[tactic(auto, unfolding(crate::specs::ReadStmt::join, crate::specs::Input::name_if))]
fn join(alloc: Global, input: &mut Input<'_, '_>, left: &Name) -> Result<Option<Join>, Stop>
    ensures { Reads (spec.join left.now input.old) result input.new }
{
    if !input.eat(Class::Reserved(Word::Join)) {
        return Ok(None);
    }
    let right = input.named(alloc)?;
    if !is_other(left, &right) {
        return Err(Stop::Refused);
    }
    input.step();
    input.expect(Class::Reserved(Word::On))?;
    let on = expression(alloc, input)?;
    Ok(Some(Join { right, on }))
}

/// DESC, or ASC, or nothing, which is ASC.
#[tactic(auto, unfolding(crate::specs::ReadStmt::direction))]
fn direction(input: &mut Input<'_, '_>) -> Result<bool, Stop>
    ensures { Reads (spec.direction input.old) result input.new }
{
    if input.eat(Class::Reserved(Word::Desc)) {
        return Ok(true);
    }
    input.eat(Class::Reserved(Word::Asc));
    Ok(false)
}

impl Item for OrderKey {
    ghost use Rattle.sql_front.specs.ReadStmt as spec;

    ghost reader = { spec.order_key };

    #[tactic(auto, unfolding(crate::specs::ReadStmt::order_key))]
    fn read(
        alloc: Global,
        input: &mut Input<'_, '_>,
        _before: &[OrderKey],
    ) -> Result<OrderKey, Stop> {
        let (table, name) = column(alloc, input)?;
        let desc = direction(input)?;
        Ok(OrderKey { table, name, desc })
    }
}

/// ORDER BY with its keys, or nothing.
#[tactic(auto, unfolding(crate::specs::ReadStmt::orders))]
fn orders(alloc: Global, input: &mut Input<'_, '_>) -> Result<Orders, Stop>
    ensures { Reads (spec.orders input.old) result input.new }
{
    if !input.eat(Class::Reserved(Word::Order)) {
        return Ok(Items::new(alloc));
    }
    input.expect(Class::Reserved(Word::By))?;
    list::<OrderKey>(alloc, input)
}

/// LIMIT with its number, or nothing.
#[tactic(auto, unfolding(crate::specs::ReadStmt::limit))]
fn limit(input: &mut Input<'_, '_>) -> Result<Option<i64>, Stop>
    ensures { Reads (spec.limit input.old) result input.new }
{
    if !input.eat(Class::Reserved(Word::Limit)) {
        return Ok(None);
    }
    let number = input.small_number()?;
    Ok(Some(number))
}

/// ORDER BY and LIMIT, where the items are not over all rows.
#[tactic(auto, unfolding(crate::specs::ReadStmt::endings))]
fn endings(
    alloc: Global,
    input: &mut Input<'_, '_>,
    items: &Selected,
) -> Result<(Orders, Option<i64>), Stop>
    ensures { Reads (spec.endings items.now input.old) result input.new }
{
    match items {
        Selected::Aggs(_) => Ok((Items::new(alloc), None)),
        Selected::Star | Selected::Plain(_) => {
            let order = orders(alloc, input)?;
            let most = limit(input)?;
            Ok((order, most))
        }
    }
}

/// What stands behind SELECT.
#[tactic(auto, unfolding(crate::specs::ReadStmt::select))]
pub fn select(alloc: Global, input: &mut Input<'_, '_>) -> Result<Stmt, Stop>
    ensures { Reads (spec.select input.old) result input.new }
{
    let items = selected_items(alloc, input)?;
    input.expect(Class::Reserved(Word::From))?;
    let left = input.name(alloc)?;
    let join = join(alloc, input, &left)?;
    let test = condition(alloc, input)?;
    let (order, limit) = endings(alloc, input, &items)?;
    Ok(Stmt::Select(Select {
        items,
        left,
        join,
        test,
        order,
        limit,
    }))
}
