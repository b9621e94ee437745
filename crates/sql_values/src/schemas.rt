use crate::values::Sort;
use rm_base::{Duplicate, Items, Name, WantOfMemory};
use std::alloc::Global;

/// A column's name and sort.
#[derive(Debug, Drop)]
pub struct Column {
    pub name: Name,
    pub sort: Sort,
}

impl Duplicate for Column {
    fn copy(&self, alloc: Global) -> Result<Column, WantOfMemory> {
        Ok(Column {
            name: self.name.copy(alloc)?,
            sort: self.sort,
        })
    }
}

/// Columns in the order of CREATE.
pub type Columns = Items<Column>;

/// A table's name, its columns, and which of them is its key, from 0.
#[derive(Debug, Drop)]
pub struct Schema {
    pub table: Name,
    pub columns: Columns,
    pub key: u8,
}

impl Duplicate for Schema {
    fn copy(&self, alloc: Global) -> Result<Schema, WantOfMemory> {
        Ok(Schema {
            table: self.table.copy(alloc)?,
            columns: self.columns.copy(alloc)?,
            key: self.key,
        })
    }
}

/// The tables that a statement names, as a view has them.
pub type Schemas = Items<Schema>;
