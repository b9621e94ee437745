ghost use Rattle.std.specs.Prelude.{◌≡◌, ◌↔◌, ℕ, List, codes, filter, Some, IsOk, IfOk, OnOk, OnErr};
ghost use Rattle.redo_record.specs.Spelling.{Spells};
ghost use Rattle.redo_record.specs.Effect.{CountsFrom};
ghost use Rattle.rm_base.specs.declared.limits.TheConstants.{CATALOG_ROOT_PAGE_ID};
ghost use Rattle.page_store.specs.Stored.{groups_of, pages_of, all_kept, given_back};
ghost use Rattle.bplus_tree.specs.Forest.{IsFull};
ghost use Rattle.sql_database.specs.Database.{Database, empty};
ghost use Rattle.sql_database.specs.Applied.{with_row, with_table};
ghost use Rattle.sql_engine.specs.Sound.{CanChange, CanCreate};
ghost use Rattle.paged_tables.specs.Content.{HoldsNow, HoldsKept, IsFullNow, IsFullTable};

use crate::catalog::{catalog_root, entry_item, find_entry};
use crate::reading::items_in;
use crate::rows::{change_tree, rows_of};
use page_store::PageStore;
use redo_record::TreeNo;
use rm_base::{CATALOG_ROOT_PAGE_ID, KeyRange, Name, WantOfMemory};
use sql_database::Change;
use sql_engine::{SpaceFull, TableStore};
use sql_values::{Rows, Schema};
use std::alloc::Global;
use std::marker::Model;
use tree_store::{forest_laws, make_room, next_page, put_with_tree};

/// Tables on the trees of a store of pages. Contracts see the groups of its log, and which database the
/// pages hold that these leave. After `SpaceFull` or want of memory only the database that is kept is known.
#[derive(Drop)]
pub struct PagedTables {
    store: PageStore,
}

impl Model for PagedTables {
    ghost use Rattle.page_store.specs.Stored.{Stored};

    ghost Value = { Stored };

    ghost view = { λ t. t.store };
}

fn done(answer: Result<(), TreeNo>) -> Result<(), SpaceFull>
    ensures { IsOk result ↔ IsOk answer }
{
    match answer {
        Ok(()) => Ok(()),
        Err(_) => Err(SpaceFull),
    }
}

impl PagedTables {
    /// A database with no tables, which is kept. `WantOfMemory` where there is no memory for its pages.
    pub fn new(alloc: Global) -> Result<PagedTables, WantOfMemory>
        ensures now { IfOk result (λ tables. HoldsNow tables empty) }
        ensures kept { IfOk result (λ tables. HoldsKept tables empty) }
    {
        forest_laws();
        Ok(PagedTables {
            store: PageStore::new(alloc)?,
        })
    }

    /// Keeps the changes. It takes no memory.
    pub fn keep(&mut self)
        ensures now { (d : Database) → HoldsNow self.old d → HoldsNow self.new d }
        ensures kept { (d : Database) → HoldsNow self.old d → HoldsKept self.new d }
        ensures groups { self.new ≡ all_kept self.old }
    {
        self.store.keep();
    }

    /// Gives the changes back that are not kept. It takes no memory.
    pub fn give_back(&mut self)
        ensures now { (d : Database) → HoldsKept self.old d → HoldsNow self.new d }
        ensures kept { (d : Database) → HoldsKept self.old d → HoldsKept self.new d }
        ensures groups { self.new ≡ given_back self.old }
    {
        self.store.give_back();
    }

    /// The bytes of the log's groups that are kept. It takes no memory.
    pub fn log(&self) -> &[u8]
        ensures spelled { Spells result.now self.now.kept }
        ensures counted { CountsFrom 0 (groups_of self.now) }
    {
        self.store.log()
    }
}

impl TableStore for PagedTables {
    ghost tables = { HoldsNow };

    ghost kept = { HoldsKept };

    ghost full = { IsFullNow };

    fn schema(&self, alloc: Global, name: &Name) -> Result<Option<Schema>, WantOfMemory> {
        match find_entry(alloc, &self.store, name)? {
            Some((schema, _)) => Ok(Some(schema)),
            None => Ok(None),
        }
    }

    fn rows(&self, alloc: Global, table: &Schema, range: &KeyRange) -> Result<Rows, WantOfMemory> {
        let Some((schema, root)) = find_entry(alloc, &self.store, &table.table)? else {
            unreachable!()
        };
        let items = items_in(alloc, &self.store, root, range)?;
        rows_of(alloc, &schema, items.as_slice())
    }

    #[tactic(auto, using(crate::proofs::TableLaws::full_now))]
    fn create(
        &mut self,
        alloc: Global,
        schema: &Schema,
    ) -> Result<Result<(), SpaceFull>, WantOfMemory>
        requires { (d : Database) × HoldsNow self.old d × CanCreate d.schemas schema.now }
        ensures made { (d : Database) → HoldsNow self.old d → CanCreate d.schemas schema.now
            → IfOk result (λ a. IsOk a → HoldsNow self.new (with_table d schema.now)) }
        ensures keeps { (k : Database) → HoldsKept self.old k → HoldsKept self.new k }
        ensures full { IfOk result (λ a. OnErr a (IsFull (pages_of self.new) CATALOG_ROOT_PAGE_ID)) }
        ensures room { IfOk result (λ a. OnErr a (IsFullNow self.new)) }
    {
        let catalog = catalog_root();
        // The item takes as many bytes whatever the root is.
        let item = entry_item(alloc, schema, catalog)?;
        let Ok(path) = make_room(alloc, &mut self.store, catalog, &item)? else {
            return Ok(Err(SpaceFull));
        };
        let Some(root) = next_page(&self.store) else {
            return Ok(Err(SpaceFull));
        };
        let item = entry_item(alloc, schema, root)?;
        put_with_tree(alloc, &mut self.store, catalog, &path, &item)?;
        Ok(Ok(()))
    }

    fn change(
        &mut self,
        alloc: Global,
        change: &Change,
    ) -> Result<Result<(), SpaceFull>, WantOfMemory>
        requires { (d : Database) × HoldsNow self.old d × CanChange d.schemas change.now }
        ensures made { (d : Database) → HoldsNow self.old d → CanChange d.schemas change.now
            → IfOk result (λ a. IsOk a → HoldsNow self.new (with_row d change.now)) }
        ensures keeps { (k : Database) → HoldsKept self.old k → HoldsKept self.new k }
        ensures full { IfOk result (λ a. OnErr a (IsFullTable (pages_of self.old) change.now.table (pages_of self.new))) }
        ensures room { IfOk result (λ a. OnErr a (IsFullNow self.new)) }
    {
        let Some((schema, root)) = find_entry(alloc, &self.store, &change.table)? else {
            unreachable!()
        };
        let answer = change_tree(alloc, &mut self.store, &schema, root, change)?;
        Ok(done(answer))
    }

    #[tactic(auto, using(crate::proofs::HoldLaws::holds_sound))]
    fn rules(&self) {}
}
