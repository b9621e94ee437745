//! Whole statements.

ghost use Rattle.std.specs.Prelude.{◌≡◌};
ghost use Rattle.sql_front.specs.Input.{Reads};
ghost use Rattle.sql_front.specs.ReadStmt as spec;

use crate::changes::{delete, insert, update};
use crate::definitions::create;
use crate::input::Input;
use crate::queries::select;
use crate::stopping::Stop;
use sql_statements::Stmt;
use sql_words::{Class, Sign, Word};
use std::alloc::Global;

/// BEGIN, COMMIT or ROLLBACK.
#[tactic(auto, unfolding(crate::specs::ReadStmt::transaction))]
fn transaction(input: &mut Input<'_, '_>) -> Result<Stmt, Stop>
    ensures { Reads (spec.transaction input.old) result input.new }
{
    if input.eat(Class::Reserved(Word::Begin)) {
        return Ok(Stmt::Begin);
    }
    if input.eat(Class::Reserved(Word::Commit)) {
        return Ok(Stmt::Commit);
    }
    input.expect(Class::Reserved(Word::Rollback))?;
    Ok(Stmt::Rollback)
}

/// A statement without its semicolon.
#[tactic(auto, unfolding(crate::specs::ReadStmt::command, crate::specs::ReadStmt::change))]
fn command(alloc: Global, input: &mut Input<'_, '_>) -> Result<Stmt, Stop>
    ensures { Reads (spec.command input.old) result input.new }
{
    if input.eat(Class::Reserved(Word::Create)) {
        return create(alloc, input);
    }
    if input.eat(Class::Reserved(Word::Insert)) {
        return insert(alloc, input);
    }
    if input.eat(Class::Reserved(Word::Select)) {
        return select(alloc, input);
    }
    if input.eat(Class::Reserved(Word::Update)) {
        return update(alloc, input);
    }
    if input.eat(Class::Reserved(Word::Delete)) {
        return delete(alloc, input);
    }
    transaction(input)
}

#[tactic(auto, unfolding(crate::specs::ReadStmt::at_end))]
fn at_end(input: &Input<'_, '_>) -> Result<(), Stop>
    ensures { Reads (spec.at_end input.now) result input.now }
{
    if input.len() == 0 {
        Ok(())
    } else {
        Err(Stop::Refused)
    }
}

/// A statement, with all of its tokens.
#[tactic(auto, unfolding(crate::specs::ReadStmt::statement))]
pub fn statement(alloc: Global, input: &mut Input<'_, '_>) -> Result<Stmt, Stop>
    ensures { Reads (spec.statement input.old) result input.new }
{
    let read = command(alloc, input)?;
    input.eat(Class::Sign(Sign::Semicolon));
    at_end(input)?;
    Ok(read)
}
