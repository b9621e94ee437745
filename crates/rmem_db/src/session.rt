ghost use Rattle.std.specs.Prelude.{◌≡◌, ◌↔◌, IsTrue, IfOk, OnErr, Ok};
ghost use Rattle.sql_database.specs.Statements.{IsEvaluated};
ghost use Rattle.sql_engine.specs.Executed.{MakesTable};
ghost use Rattle.table_machine.specs.Serving.{Evaluates, GivesBack, Keeps, Opens, TableState, Turn};
ghost use Rattle.rmem_db.specs.Session.{Stands, Takes, TakesTurn, sql};

use crate::language::Sql;
use crate::tables::Working;
use rm_base::WantOfMemory;
use sql_database::SqlReply;
use sql_engine::execute;
use sql_front::{created_tables, parse};
use sql_statements::Stmt;
use std::alloc::Global;
use table_machine::serving_laws;

/// Whether there was no room.
fn is_full(reply: &SqlReply) -> bool
    ensures { IsTrue result ↔ (reply.now ≡ SqlReply.SpaceFull) }
{
    matches!(reply, SqlReply::SpaceFull)
}

/// The tables of the one session, and whether a BEGIN opened a transaction.
#[derive(Drop)]
pub(crate) struct OneSession<W> {
    pub tables: W,
    pub in_transaction: bool,
}

impl<W: Working> OneSession<W> {
    /// BEGIN.
    fn begin(&mut self) -> SqlReply
        ensures { (t : TableState) → Stands W.kept W.tables self.old t → Takes W.kept W.tables (Opens t) self.new result }
    {
        if self.in_transaction {
            return SqlReply::InTransaction;
        }
        self.in_transaction = true;
        SqlReply::Ok(0)
    }

    /// COMMIT.
    fn commit(&mut self) -> SqlReply
        ensures { (t : TableState) → Stands W.kept W.tables self.old t → Takes W.kept W.tables (Keeps t) self.new result }
    {
        if self.in_transaction {
            self.tables.keep();
            self.in_transaction = false;
            return SqlReply::Ok(0);
        }
        SqlReply::NoTransaction
    }

    /// ROLLBACK.
    fn roll_back(&mut self) -> SqlReply
        ensures { (t : TableState) → Stands W.kept W.tables self.old t → Takes W.kept W.tables (GivesBack t) self.new result }
    {
        if self.in_transaction {
            self.tables.give_back();
            self.in_transaction = false;
            return SqlReply::Ok(0);
        }
        SqlReply::NoTransaction
    }

    /// Any other statement. Its changes join those of the open transaction or are kept at once; where there
    /// is no room for them, they go, and the open transaction with them.
    fn do_other(&mut self, alloc: Global, statement: &Stmt) -> Result<SqlReply, WantOfMemory>
        requires some { (t : TableState) × Stands W.kept W.tables self.old t }
        requires kind { IsEvaluated statement.now }
        requires made { MakesTable statement.now }
        ensures ok { (t : TableState) → Stands W.kept W.tables self.old t
            → IfOk result (Takes W.kept W.tables (Evaluates sql statement.now t) self.new) }
        ensures err { (t : TableState) → Stands W.kept W.tables self.old t → OnErr result (W.kept self.new.tables t.kept) }
    {
        serving_laws::<Sql>();
        let reply = execute(alloc, &mut self.tables, statement)?;
        if is_full(&reply) {
            self.tables.fills();
            self.tables.give_back();
            self.in_transaction = false;
            return Ok(reply);
        }
        if self.in_transaction {
            return Ok(reply);
        }
        self.tables.keep();
        Ok(reply)
    }

    /// A statement.
    fn obey(&mut self, alloc: Global, statement: &Stmt) -> Result<SqlReply, WantOfMemory>
        requires some { (t : TableState) × Stands W.kept W.tables self.old t }
        requires made { MakesTable statement.now }
        ensures ok { (t : TableState) → Stands W.kept W.tables self.old t
            → IfOk result (Takes W.kept W.tables (Turn sql (Ok statement.now) t) self.new) }
        ensures err { (t : TableState) → Stands W.kept W.tables self.old t → OnErr result (W.kept self.new.tables t.kept) }
    {
        match statement {
            Stmt::Begin => Ok(self.begin()),
            Stmt::Commit => Ok(self.commit()),
            Stmt::Rollback => Ok(self.roll_back()),
            _ => self.do_other(alloc, statement),
        }
    }

    /// A line. After an `Err` nothing is said of the session but what its tables keep.
    pub fn answer(&mut self, alloc: Global, line: &[u8]) -> Result<SqlReply, WantOfMemory>
        requires { (t : TableState) × Stands W.kept W.tables self.old t }
        ensures ok { (t : TableState) → Stands W.kept W.tables self.old t
            → IfOk result (TakesTurn W.kept W.tables line.now t self.new) }
        ensures err { (t : TableState) → Stands W.kept W.tables self.old t → OnErr result (W.kept self.new.tables t.kept) }
    {
        created_tables();
        match parse(alloc, line)? {
            Ok(statement) => self.obey(alloc, &statement),
            Err(syntax) => Ok(SqlReply::Syntax(syntax.at)),
        }
    }
}
