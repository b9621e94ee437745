ghost use Rattle.std.specs.Prelude.{◌≡◌, ◌≤◌, ◌<◌, length, SomeIff, IfOk};

use crate::Text;
use crate::errors::WantOfMemory;
use crate::items::{Duplicate, Items};
use crate::limits::MAX_NAME_BYTES;
use std::alloc::Global;
use std::marker::Model;

/// The name of a table, a column or a session: a text of 1 to 32 bytes.
#[derive(Debug, Drop)]
pub struct Name {
    text: Text,
}

impl Model for Name {
    ghost use Rattle.std.specs.Prelude.{List, ℕ, ◌<◌, ◌≤◌, length};
    ghost use Rattle.std.specs.Coded.{coded_list, coded_ℕ};

    ghost Value = { List ℕ };

    ghost coded = { coded_list coded_ℕ };

    ghost view = { λ name. name.text };

    ghost invariant = { λ name. (0 < length name.text) × (length name.text ≤ 32) };
}

impl Name {
    /// None for the empty text and for one past 32 bytes.
    pub fn new(text: Text) -> Option<Name>
        ensures { SomeIff result ((0 < length text) × (length text ≤ 32)) text }
    {
        if text.is_empty() || text.len() > MAX_NAME_BYTES {
            return None;
        }
        Some(Name { text })
    }

    pub fn as_slice(&self) -> &[u8]
        ensures text { result.now ≡ self.now }
        ensures some { 0 < length self.now }
        ensures bound { length self.now ≤ 32 }
    {
        self.text.as_slice()
    }
}

impl Duplicate for Name {
    fn copy(&self, alloc: Global) -> Result<Name, WantOfMemory> {
        let text = self.text.copy(alloc)?;
        Ok(Name { text })
    }
}

/// Names in the order of a text.
pub type Names = Items<Name>;
