//! INSERT, UPDATE and DELETE.

ghost use Rattle.std.specs.Prelude.{◌≡◌};
ghost use Rattle.std.specs.List.{list_any};
ghost use Rattle.std.specs.Str.{bytes_eq};
ghost use Rattle.sql_front.specs.Conditions as conditions;
ghost use Rattle.sql_front.specs.Input.{Reads};
ghost use Rattle.sql_front.specs.ReadStmt as spec;

use crate::input::Input;
use crate::lists::{Item, list};
use crate::reading::expression;
use crate::stopping::Stop;
use rm_base::{Name, Names};
use sql_statements::{Expr, Exprs, SetItem, Stmt};
use sql_words::{Class, Sign, Word};
use std::alloc::Global;

fn is_among(name: &Name, names: &[Name]) -> bool
    ensures { result ≡ list_any (λ other. bytes_eq other name.now) names.now }
{
    names
        .iter()
        .any(|other| other.as_slice() == name.as_slice())
}

#[tactic(auto, unfolding(crate::specs::Conditions::is_new))]
fn is_new(before: &[Name], name: &Name) -> bool
    ensures { result ≡ conditions.is_new before.now name.now }
{
    !is_among(name, before)
}

impl Item for Name {
    ghost use Rattle.sql_front.specs.ReadStmt as spec;

    ghost reader = { spec.new_name };

    #[tactic(auto, unfolding(crate::specs::ReadStmt::new_name, crate::specs::Input::name_if))]
    fn read(alloc: Global, input: &mut Input<'_, '_>, before: &[Name]) -> Result<Name, Stop> {
        let name = input.named(alloc)?;
        if !is_new(before, &name) {
            return Err(Stop::Refused);
        }
        input.step();
        Ok(name)
    }
}

/// The columns of INSERT in brackets, or nothing.
#[tactic(auto, unfolding(crate::specs::ReadStmt::named_columns))]
fn named_columns(alloc: Global, input: &mut Input<'_, '_>) -> Result<Option<Names>, Stop>
    ensures { Reads (spec.named_columns input.old) result input.new }
{
    if !input.eat(Class::Sign(Sign::Open)) {
        return Ok(None);
    }
    let names = list::<Name>(alloc, input)?;
    input.expect(Class::Sign(Sign::Close))?;
    Ok(Some(names))
}

impl Item for Expr {
    ghost use Rattle.sql_front.specs.ReadStmt as spec;

    ghost reader = { spec.value };

    #[tactic(auto, unfolding(crate::specs::ReadStmt::value))]
    fn read(alloc: Global, input: &mut Input<'_, '_>, _before: &[Expr]) -> Result<Expr, Stop> {
        expression(alloc, input)
    }
}

impl Item for Exprs {
    ghost use Rattle.sql_front.specs.ReadStmt as spec;

    ghost reader = { spec.tuple };

    #[tactic(auto, unfolding(crate::specs::ReadStmt::tuple))]
    fn read(alloc: Global, input: &mut Input<'_, '_>, _before: &[Exprs]) -> Result<Exprs, Stop> {
        input.expect(Class::Sign(Sign::Open))?;
        let values = list::<Expr>(alloc, input)?;
        input.expect(Class::Sign(Sign::Close))?;
        Ok(values)
    }
}

/// What stands behind INSERT.
#[tactic(auto, unfolding(crate::specs::ReadStmt::insert))]
pub fn insert(alloc: Global, input: &mut Input<'_, '_>) -> Result<Stmt, Stop>
    ensures { Reads (spec.insert input.old) result input.new }
{
    input.expect(Class::Reserved(Word::Into))?;
    let table = input.name(alloc)?;
    let columns = named_columns(alloc, input)?;
    input.expect(Class::Reserved(Word::Values))?;
    let rows = list::<Exprs>(alloc, input)?;
    Ok(Stmt::Insert {
        table,
        columns,
        rows,
    })
}

fn is_set(before: &[SetItem], name: &Name) -> bool
    ensures { result ≡ list_any (λ item. bytes_eq item.name name.now) before.now }
{
    before
        .iter()
        .any(|item| item.name.as_slice() == name.as_slice())
}

#[tactic(auto, unfolding(crate::specs::Conditions::is_new_set))]
fn is_new_set(before: &[SetItem], name: &Name) -> bool
    ensures { result ≡ conditions.is_new_set before.now name.now }
{
    !is_set(before, name)
}

impl Item for SetItem {
    ghost use Rattle.sql_front.specs.ReadStmt as spec;

    ghost reader = { spec.set_item };

    #[tactic(auto, unfolding(crate::specs::ReadStmt::set_item, crate::specs::Input::name_if))]
    fn read(alloc: Global, input: &mut Input<'_, '_>, before: &[SetItem]) -> Result<SetItem, Stop> {
        let name = input.named(alloc)?;
        if !is_new_set(before, &name) {
            return Err(Stop::Refused);
        }
        input.step();
        input.expect(Class::Sign(Sign::Eq))?;
        let value = expression(alloc, input)?;
        Ok(SetItem { name, value })
    }
}

/// WHERE and its test, or nothing.
#[tactic(auto, unfolding(crate::specs::ReadStmt::condition))]
pub fn condition(alloc: Global, input: &mut Input<'_, '_>) -> Result<Option<Expr>, Stop>
    ensures { Reads (spec.condition input.old) result input.new }
{
    if !input.eat(Class::Reserved(Word::Where)) {
        return Ok(None);
    }
    let test = expression(alloc, input)?;
    Ok(Some(test))
}

/// What stands behind UPDATE.
#[tactic(auto, unfolding(crate::specs::ReadStmt::update))]
pub fn update(alloc: Global, input: &mut Input<'_, '_>) -> Result<Stmt, Stop>
    ensures { Reads (spec.update input.old) result input.new }
{
    let table = input.name(alloc)?;
    input.expect(Class::Reserved(Word::Set))?;
    let sets = list::<SetItem>(alloc, input)?;
    let test = condition(alloc, input)?;
    Ok(Stmt::Update { table, sets, test })
}

/// What stands behind DELETE.
#[tactic(auto, unfolding(crate::specs::ReadStmt::delete))]
pub fn delete(alloc: Global, input: &mut Input<'_, '_>) -> Result<Stmt, Stop>
    ensures { Reads (spec.delete input.old) result input.new }
{
    input.expect(Class::Reserved(Word::From))?;
    let table = input.name(alloc)?;
    let test = condition(alloc, input)?;
    Ok(Stmt::Delete { table, test })
}
