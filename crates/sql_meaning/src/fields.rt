ghost use Rattle.std.specs.Prelude.{◌≡◌, ◌++◌, OnOk, IfOk, count_by, position};
ghost use Rattle.std.specs.Option.{option_copied};
ghost use Rattle.sql_values.specs.Tables as tables;
ghost use Rattle.sql_meaning.specs.Names.{place, table_fields};
ghost use Rattle.sql_meaning.specs.Names as spec;

use rm_base::{Duplicate, Items, Name, WantOfMemory};
use sql_values::{Column, Schema, Schemas, Sort};
use std::alloc::Global;

/// A column of the rows that expressions see: of a table's rows, or of pairs of rows joined into one.
#[derive(Debug, Drop)]
pub struct Field {
    pub table: Name,
    pub name: Name,
    pub sort: Sort,
}

/// The columns of a row, in order.
pub type Fields = Items<Field>;

/// The schema of the table with that name.
pub fn table_named<'a>(schemas: &'a Schemas, name: &Name) -> Option<&'a Schema>
    ensures { option_copied result ≡ tables.table_named schemas.now name.now }
{
    schemas
        .as_slice()
        .iter()
        .find(|schema| schema.table.as_slice() == name.as_slice())
}

/// Adds a table's columns. After an Err some of them may be there.
pub fn append_fields(
    alloc: Global,
    fields: &mut Fields,
    schema: &Schema,
) -> Result<(), WantOfMemory>
    ensures { OnOk result (fields.new ≡ fields.old ++ table_fields schema.now) }
{
    for column in schema.columns.as_slice() {
        fields.push(field_of(alloc, &schema.table, column)?)?;
    }
    Ok(())
}

fn field_of(alloc: Global, table: &Name, column: &Column) -> Result<Field, WantOfMemory>
    ensures { IfOk result (λ f. f ≡ spec.field_of table.now column.now) }
{
    Ok(Field {
        table: table.copy(alloc)?,
        name: column.name.copy(alloc)?,
        sort: column.sort,
    })
}

/// The place of the one column with that name, of that table where one is given. None where there is no
/// such column, or more than one.
#[tactic(auto, unfolding(crate::specs::Names::place))]
pub fn place_of(fields: &[Field], table: &Option<Name>, name: &Name) -> Option<usize>
    ensures { result ≡ place fields.now table.now name.now }
{
    if times_named(fields, table, name) != 1 {
        return None;
    }
    first_named(fields, table, name)
}

fn first_named(fields: &[Field], table: &Option<Name>, name: &Name) -> Option<usize>
    ensures { result ≡ position (spec.is_named table.now name.now) fields.now }
{
    fields.iter().position(|field| is_named(table, name, field))
}

fn times_named(fields: &[Field], table: &Option<Name>, name: &Name) -> usize
    ensures { result ≡ count_by (spec.is_named table.now name.now) fields.now }
{
    fields
        .iter()
        .filter(|field| is_named(table, name, field))
        .count()
}

fn is_named(table: &Option<Name>, name: &Name, field: &Field) -> bool
    ensures { result ≡ spec.is_named table.now name.now field.now }
{
    field.name.as_slice() == name.as_slice() && is_of(table, field)
}

fn is_of(table: &Option<Name>, field: &Field) -> bool
    ensures { result ≡ spec.is_of table.now field.now }
{
    match table {
        None => true,
        Some(table) => field.table.as_slice() == table.as_slice(),
    }
}
