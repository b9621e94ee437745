ghost use Rattle.std.specs.Prelude.{◌≡◌, [], ◌∷◌, ◌++◌, List, IsTrue, ◌↔◌, OnOk, OnErr};
ghost use Rattle.redo_record.specs.declared.redo.Group.{Group};

use redo_record::Group;
use rm_base::WantOfMemory;
use std::alloc::Global;
use std::marker::Model;

/// Records that wait to be folded, each alone in a group with its LSN. Contracts see the list.
#[derive(Drop)]
pub(crate) struct Pending {
    groups: Vec<Group>,
}

impl Model for Pending {
    ghost use Rattle.std.specs.Prelude.{List};
    ghost use Rattle.redo_record.specs.declared.redo.Group.{Group};

    ghost Value = { List Group };

    ghost view = { λ p. p.groups.items };
}

impl Pending {
    pub fn new(alloc: Global) -> Pending
        ensures { result ≡ [] }
    {
        Pending {
            groups: Vec::new(alloc),
        }
    }

    pub fn is_empty(&self) -> bool
        ensures { IsTrue result ↔ (self.now ≡ []) }
    {
        self.groups.is_empty()
    }

    pub fn as_slice(&self) -> &[Group]
        ensures { result.now ≡ self.now }
    {
        self.groups.as_slice()
    }

    pub fn push(&mut self, group: Group) -> Result<(), WantOfMemory>
        ensures ok { OnOk result (self.new ≡ self.old ++ group ∷ []) }
        ensures err { OnErr result (self.new ≡ self.old) }
    {
        self.groups.push(group)?;
        Ok(())
    }

    /// Takes the last one out.
    pub fn pop(&mut self)
        ensures { (gs : List Group) (g : Group) → self.old ≡ gs ++ g ∷ [] → self.new ≡ gs }
    {
        let _ = self.groups.pop();
    }

    pub fn clear(&mut self)
        ensures { self.new ≡ [] }
    {
        self.groups.clear();
    }
}
