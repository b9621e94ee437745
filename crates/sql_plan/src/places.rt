ghost use Rattle.std.specs.Prelude.{◌≡◌, ◌≤◌, ◌<◌, ◌^◌, option_map, nat_lt};
ghost use Rattle.sql_meaning.specs.Ranges as spec;

use rm_base::Name;
use sql_meaning::table_named;
use sql_values::Schemas;
use std::marker::Model;

/// The places of the keys of a statement's tables in the rows joined of both, and how many columns the left
/// table has.
#[derive(Drop)]
pub struct Keys {
    left: usize,
    right: Option<usize>,
    width: usize,
}

impl Model for Keys {
    ghost use Rattle.sql_meaning.specs.Ranges.{KeyPlaces};

    ghost Value = { KeyPlaces };

    ghost view = { λ keys. record { left = keys.left; right = keys.right; width = keys.width } };
}

impl Keys {
    /// The keys of a statement's tables: of the only or left one, and of the right one in a join.
    pub fn of(schemas: &Schemas, left: &Name, right: Option<&Name>) -> Keys
        ensures { result ≡ spec.key_places schemas.now left.now (option_map (λ t. t.now) right.entry) }
    {
        let width = width_of(schemas, left);
        Keys {
            left: key_place(schemas, left),
            right: right.map(|table| width + key_place(schemas, table)),
            width,
        }
    }

    pub fn is_right(&self, place: usize) -> bool
        ensures { result ≡ spec.is_right_key self.now place }
    {
        match self.right {
            Some(right) => right == place,
            None => false,
        }
    }

    /// Whether the place is that of a table's key.
    pub fn has(&self, place: usize) -> bool
        ensures { result ≡ spec.is_key_place self.now place }
    {
        self.left == place || self.is_right(place)
    }

    /// Whether the place is one of the left table's columns.
    pub fn is_of_left(&self, place: usize) -> bool
        ensures { result ≡ nat_lt place self.now.width }
    {
        place < self.width
    }
}

/// The place of a table's key in its own rows.
pub fn key_place(schemas: &Schemas, table: &Name) -> usize
    ensures place { result ≡ spec.key_place schemas.now table.now }
    ensures bound { result ≤ 255 }
{
    match table_named(schemas, table) {
        Some(schema) => widened(schema.key),
        None => 0,
    }
}

/// The number of a table's columns.
pub fn width_of(schemas: &Schemas, table: &Name) -> usize
    ensures width { result ≡ spec.width_of schemas.now table.now }
    ensures bound { result < 2 ^ 63 }
{
    match table_named(schemas, table) {
        Some(schema) => schema.columns.as_slice().len(),
        None => 0,
    }
}

fn widened(key: u8) -> usize
    ensures same { result ≡ key }
    ensures bound { result ≤ 255 }
{
    usize::from(key)
}
