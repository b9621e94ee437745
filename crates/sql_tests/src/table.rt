//! A table as a plain list of rows by their keys.
use rm_base::{Bytes, Duplicate, Name, WantOfMemory};
use sql_database::Change;
use sql_values::{Row, Rows};
use std::alloc::Global;

/// A row and its key.
#[derive(Drop)]
struct Entry {
    key: Bytes,
    row: Row,
}

/// A name, and rows in the order of their keys.
#[derive(Drop)]
pub(crate) struct Table {
    name: Name,
    entries: Vec<Entry>,
}

impl Table {
    pub(crate) fn new(alloc: Global, name: Name) -> Table {
        Table {
            name,
            entries: Vec::new(alloc),
        }
    }

    pub(crate) fn is_named(&self, name: &Name) -> bool {
        self.name.as_slice() == name.as_slice()
    }

    pub(crate) fn rows(&self, alloc: Global) -> Result<Rows, WantOfMemory> {
        let mut rows = Rows::new(alloc);
        for entry in &self.entries {
            rows.push(entry.row.copy(alloc)?)?;
        }
        Ok(rows)
    }

    /// The place of the first key that is not less.
    fn place(&self, key: &[u8]) -> usize {
        for (place, entry) in self.entries.iter().enumerate() {
            if entry.key.as_slice() >= key {
                return place;
            }
        }
        self.entries.len()
    }

    fn remove(&mut self, place: usize, key: &[u8]) {
        if place < self.entries.len() && self.entries[place].key.as_slice() == key {
            self.entries.remove(place);
        }
    }

    fn insert(
        &mut self,
        alloc: Global,
        place: usize,
        key: &Bytes,
        row: &Row,
    ) -> Result<(), WantOfMemory> {
        let key = key.copy(alloc)?;
        let row = row.copy(alloc)?;
        let place = place.min(self.entries.len());
        self.entries.insert(place, Entry { key, row })?;
        Ok(())
    }

    /// Puts the change's row in the place of the one that has its key, or none.
    pub(crate) fn make(&mut self, alloc: Global, change: &Change) -> Result<(), WantOfMemory> {
        let place = self.place(change.key.as_slice());
        self.remove(place, change.key.as_slice());
        match &change.row {
            Some(row) => self.insert(alloc, place, &change.key, row),
            None => Ok(()),
        }
    }
}
