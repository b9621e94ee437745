ghost use Rattle.std.specs.Prelude.{◌≡◌, Some, IfOk, IsOk, OnErr, OnOk, filter};
ghost use Rattle.row_codec.specs.Keys.{key_bytes};
ghost use Rattle.row_codec.specs.Records.{key_cell};
ghost use Rattle.sql_values.specs.Tables.{table_named};
ghost use Rattle.sql_meaning.specs.Ranges.{in_range};
ghost use Rattle.sql_database.specs.Database.{Database};
ghost use Rattle.sql_database.specs.Applied.{with_row, with_table};
ghost use Rattle.sql_engine.specs.Sound.{CanChange, CanCreate, IsSound};

use rm_base::{KeyRange, Name, WantOfMemory};
use sql_database::Change;
use sql_values::{Rows, Schema};
use std::alloc::Global;
use thiserror::Error;

/// A change found no room.
#[derive(Clone, Copy, Debug, PartialEq, Eq, Error)]
#[error("no room for a change")]
pub struct SpaceFull;

/// Tables that statements read and change.
///
/// `tables` says which database the store has, with the changes that it may yet give up, and `kept` which
/// one it has without them, which no change takes away. `full` says that the store has no room for a
/// change. After `SpaceFull` or want of memory of a change nothing is said of `tables`.
pub trait TableStore {
    ghost tables: { Self → Database → Type 0 };

    ghost kept: { Self → Database → Type 0 };

    ghost full: { Self → Type 0 };

    /// The schema of the table with that name, where there is one.
    fn schema(&self, alloc: Global, name: &Name) -> Result<Option<Schema>, WantOfMemory>
        requires { (d : Database) × tables self.now d }
        ensures { (d : Database) → tables self.now d → IfOk result (λ s. s ≡ table_named d.schemas name.now) };

    /// The rows of a table whose keys lie in the range, in the order of their keys.
    fn rows(&self, alloc: Global, table: &Schema, range: &KeyRange) -> Result<Rows, WantOfMemory>
        requires { (d : Database) × tables self.now d
            × (table_named d.schemas table.now.table ≡ Some table.now) }
        ensures { (d : Database) → tables self.now d → IfOk result (λ rows.
            rows ≡ filter (λ r. in_range (key_bytes (key_cell table.now.key r)) range.now) (d.tables table.now.table)) };

    /// Makes a table with no rows.
    fn create(
        &mut self,
        alloc: Global,
        schema: &Schema,
    ) -> Result<Result<(), SpaceFull>, WantOfMemory>
        requires { (d : Database) × tables self.old d × CanCreate d.schemas schema.now }
        ensures made { (d : Database) → tables self.old d → CanCreate d.schemas schema.now
            → IfOk result (λ a. IsOk a → tables self.new (with_table d schema.now)) }
        ensures room { IfOk result (λ a. OnErr a (full self.new)) }
        ensures keeps { (k : Database) → kept self.old k → kept self.new k };

    /// Makes the row stand under its key, or lets none stand there.
    fn change(
        &mut self,
        alloc: Global,
        change: &Change,
    ) -> Result<Result<(), SpaceFull>, WantOfMemory>
        requires { (d : Database) × tables self.old d × CanChange d.schemas change.now }
        ensures made { (d : Database) → tables self.old d → CanChange d.schemas change.now
            → IfOk result (λ a. IsOk a → tables self.new (with_row d change.now)) }
        ensures room { IfOk result (λ a. OnErr a (full self.new)) }
        ensures keeps { (k : Database) → kept self.old k → kept self.new k };

    /// What holds of each database that the store has. It does nothing when it is run.
    fn rules(&self)
        ensures { (d : Database) → tables self.now d → IsSound d };
}
