use paged_tables::PagedTables;
use sql_engine::TableStore;

/// A store of tables whose changes are kept or given back. `kept` says which database stands without them.
pub(crate) trait Working: TableStore {
    ghost use Rattle.sql_database.specs.Database.{Database};
    ghost use Rattle.rmem_db.specs.Session.{CanBeFull};

    /// A store that is full is one that can be. It does nothing when it is run.
    fn fills(&self)
        ensures { (k : Database) → Self.kept self.now k → Self.full self.now → CanBeFull k };

    /// Keeps the changes.
    fn keep(&mut self)
        ensures kept { (d : Database) → Self.tables self.old d → Self.kept self.new d }
        ensures tables { (d : Database) → Self.tables self.old d → Self.tables self.new d };

    /// Gives the changes back. Nothing need be known of the tables with them.
    fn give_back(&mut self)
        ensures kept { (k : Database) → Self.kept self.old k → Self.kept self.new k }
        ensures tables { (k : Database) → Self.kept self.old k → Self.tables self.new k };
}

impl Working for PagedTables {
    #[tactic(auto, using(crate::proofs::SessionLaws::can_be_full))]
    fn fills(&self) {}

    fn keep(&mut self) {
        PagedTables::keep(self);
    }

    fn give_back(&mut self) {
        PagedTables::give_back(self);
    }
}
