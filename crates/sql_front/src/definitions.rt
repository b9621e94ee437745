//! CREATE and its columns.

ghost use Rattle.std.specs.Prelude.{◌≡◌, ◌≤◌, IfOk, length, not};
ghost use Rattle.std.specs.List.{list_any};
ghost use Rattle.std.specs.Str.{bytes_eq};
ghost use Rattle.sql_front.specs.Conditions as conditions;
ghost use Rattle.sql_front.specs.Input.{Reads};
ghost use Rattle.sql_front.specs.ReadStmt as spec;

use crate::input::Input;
use crate::lists::{Item, list};
use crate::stopping::Stop;
use rm_base::{Items, MAX_COLUMNS, Name, WantOfMemory};
use sql_statements::Stmt;
use sql_values::{Column, Schema, Sort};
use sql_words::{Class, Sign, Word};
use std::alloc::Global;

/// A column of CREATE, and whether it is the key.
#[derive(Drop)]
pub struct Definition {
    pub column: Column,
    pub is_key: bool,
}

#[tactic(auto, unfolding(crate::specs::Conditions::has_key))]
fn has_key(columns: &[Definition]) -> bool
    ensures { result ≡ conditions.has_key columns.now }
{
    columns.iter().any(|column| column.is_key)
}

fn is_named(before: &[Definition], name: &Name) -> bool
    ensures { result ≡ list_any (λ column. bytes_eq column.column.name name.now) before.now }
{
    before
        .iter()
        .any(|other| other.column.name.as_slice() == name.as_slice())
}

#[tactic(auto, unfolding(crate::specs::Conditions::is_new_column))]
fn is_new_column(before: &[Definition], name: &Name) -> bool
    ensures { result ≡ conditions.is_new_column before.now name.now }
{
    before.len() < MAX_COLUMNS && !is_named(before, name)
}

#[tactic(auto, unfolding(crate::specs::ReadStmt::sort_word))]
fn sort_word(input: &mut Input<'_, '_>) -> Result<Sort, Stop>
    ensures { Reads (spec.sort_word input.old) result input.new }
{
    if input.eat(Class::Reserved(Word::Text)) {
        return Ok(Sort::Text);
    }
    input.expect(Class::Reserved(Word::Int))?;
    Ok(Sort::Int)
}

/// PRIMARY KEY or nothing.
#[tactic(auto, unfolding(crate::specs::ReadStmt::key_mark))]
fn key_mark(input: &mut Input<'_, '_>, allowed: bool) -> Result<bool, Stop>
    ensures { Reads (spec.key_mark allowed input.old) result input.new }
{
    if !input.sees(Class::Reserved(Word::Primary)) {
        return Ok(false);
    }
    input.expect_if(allowed, Class::Reserved(Word::Primary))?;
    input.expect(Class::Reserved(Word::Key))?;
    Ok(true)
}

impl Item for Definition {
    ghost use Rattle.std.specs.Prelude.{◌≤◌, length};
    ghost use Rattle.sql_front.specs.ReadStmt as spec;

    ghost reader = { spec.definition };

    ghost fits = { λ columns. length columns ≤ 16 };

    #[tactic(auto, unfolding(crate::specs::ReadStmt::definition, crate::specs::Input::name_if, crate::specs::Conditions::is_new_column))]
    fn read(
        alloc: Global,
        input: &mut Input<'_, '_>,
        before: &[Definition],
    ) -> Result<Definition, Stop> {
        let name = input.named(alloc)?;
        if !is_new_column(before, &name) {
            return Err(Stop::Refused);
        }
        input.step();
        let sort = sort_word(input)?;
        let is_key = key_mark(input, !has_key(before))?;
        Ok(Definition {
            column: Column { name, sort },
            is_key,
        })
    }
}

#[tactic(auto, unfolding(crate::specs::Conditions::key_place))]
fn key_place(columns: &[Definition]) -> usize
    ensures place { result ≡ conditions.key_place columns.now }
    ensures bound { result ≤ length columns.now }
{
    match columns.iter().position(|column| column.is_key) {
        Some(place) => place,
        None => columns.len(),
    }
}

/// The table with these columns.
#[tactic(auto, unfolding(crate::specs::Conditions::schema))]
fn schema(
    alloc: Global,
    table: Name,
    definitions: Items<Definition>,
) -> Result<Schema, WantOfMemory>
    requires { length definitions ≤ 16 }
    ensures { IfOk result (λ s. s ≡ conditions.schema table definitions) }
{
    let key = key_place(definitions.as_slice()) as u8;
    let mut columns = Items::new(alloc);
    'definitions: for definition in definitions.into_vec() {
        columns.push(definition.column)?;
    }
    Ok(Schema {
        table,
        columns,
        key,
    })
}

/// What stands behind CREATE.
#[tactic(auto, unfolding(crate::specs::ReadStmt::create))]
pub fn create(alloc: Global, input: &mut Input<'_, '_>) -> Result<Stmt, Stop>
    ensures { Reads (spec.create input.old) result input.new }
{
    input.expect(Class::Reserved(Word::Table))?;
    let table = input.name(alloc)?;
    input.expect(Class::Sign(Sign::Open))?;
    let columns = list::<Definition>(alloc, input)?;
    let has_key = has_key(columns.as_slice());
    input.expect_if(has_key, Class::Sign(Sign::Close))?;
    let schema = schema(alloc, table, columns)?;
    Ok(Stmt::Create { schema })
}
