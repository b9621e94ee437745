ghost use Rattle.std.specs.Prelude.{◌≡◌, ◌≤◌, ◌<◌, ◌+◌, [], ◌∷◌, ◌++◌, List, IsTrue, ◌↔◌, IfOk, OnOk, OnErr};
ghost use Rattle.redo_record.specs.declared.redo.Group.{Group};
ghost use Rattle.redo_record.specs.Effect.{after_groups, GroupsApply, RecordsApply};
ghost use Rattle.page_chunks.specs.Entries.{empty, base_of, image_of, single, Rises, Replays};

use crate::pending::Pending;
use materialiser::replay;
use page_image::Page;
use redo_record::{Group, Record};
use rm_base::{Duplicate, Items, Lsn, PageId, WantOfMemory};
use std::alloc::Global;

/// What a chunk keeps of one page: a base image, or none before the page is first folded, and the
/// records that are not folded into it.
#[derive(Drop)]
pub(crate) struct Entry {
    pub base: Option<Page>,
    pub pending: Pending,
}

/// The record alone in a group.
fn alone(alloc: Global, lsn: Lsn, r: &Record) -> Result<Group, WantOfMemory>
    ensures { IfOk result (λ g. g ≡ single lsn r.now) }
{
    let mut records = Vec::with_capacity(alloc, 1)?;
    records.push(r.copy(alloc)?)?;
    Ok(Group {
        lsn,
        records: Items::from_vec(records),
    })
}

/// Does the records of the groups that are for the page to it, in order. It takes no memory.
fn replay_all(page: &mut Page, groups: &[Group])
    requires rises { Rises page.old.lsn groups.now }
    requires apply { GroupsApply groups.now page.old }
    ensures { page.new ≡ after_groups groups.now page.old }
{
    for group in groups {
        if replay(page, group).is_err() {
            unreachable!()
        }
    }
}

impl Entry {
    pub fn new(alloc: Global) -> Entry
        ensures { result ≡ empty }
    {
        Entry {
            base: None,
            pending: Pending::new(alloc),
        }
    }

    /// Takes a record of a group with that LSN.
    pub fn push(&mut self, alloc: Global, lsn: Lsn, r: &Record) -> Result<(), WantOfMemory>
        ensures ok { OnOk result (self.new ≡ record self.old { pending = self.old.pending ++ single lsn r.now ∷ [] }) }
        ensures err { OnErr result (self.new ≡ self.old) }
    {
        self.pending.push(alone(alloc, lsn, r)?)
    }

    /// Gives the last record back.
    pub fn pop(&mut self)
        ensures base { self.new.base ≡ self.old.base }
        ensures pending { (gs : List Group) (g : Group) → self.old.pending ≡ gs ++ g ∷ [] → self.new.pending ≡ gs }
    {
        self.pending.pop();
    }

    fn base_image(&self, alloc: Global, p: PageId) -> Result<Page, WantOfMemory>
        ensures { IfOk result (λ page. page ≡ base_of p self.now) }
    {
        match &self.base {
            Some(page) => page.copy(alloc),
            None => Page::blank(alloc, p),
        }
    }

    /// The page with all its records.
    pub fn image(&self, alloc: Global, p: PageId) -> Result<Page, WantOfMemory>
        requires { Replays p self.now }
        ensures { IfOk result (λ page. page ≡ image_of p self.now) }
    {
        let mut page = self.base_image(alloc, p)?;
        replay_all(&mut page, self.pending.as_slice());
        Ok(page)
    }

    /// Makes the page with all its records the base image.
    pub fn fold(&mut self, alloc: Global, p: PageId) -> Result<(), WantOfMemory>
        requires { Replays p self.old }
        ensures base { OnOk result (base_of p self.new ≡ image_of p self.old) }
        ensures none { OnOk result (self.new.pending ≡ []) }
        ensures err { OnErr result (self.new ≡ self.old) }
    {
        if self.pending.is_empty() {
            return Ok(());
        }
        let page = self.image(alloc, p)?;
        self.base = Some(page);
        self.pending.clear();
        Ok(())
    }
}
