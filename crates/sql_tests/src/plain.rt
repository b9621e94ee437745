//! A database of plain lists, and statements over all rows of its tables.
ghost use Rattle.sql_database.specs.Statements.{IsEvaluated};

use crate::parts::{is_evaluated, left, made, right};
use crate::table::Table;
use reply_text::reply_text;
use rm_base::{Duplicate, Name, Text, WantOfMemory};
use sql_database::{Change, Changes, SqlReply};
use sql_exec::{Outcome, RangeRows, RowLists, eval};
use sql_front::parse;
use sql_statements::Stmt;
use sql_values::{Rows, Schema, Schemas};
use std::alloc::Global;

/// Schemas, and a table of each.
#[derive(Drop)]
pub(crate) struct Plain {
    schemas: Schemas,
    tables: Vec<Table>,
}

impl Plain {
    pub(crate) fn new(alloc: Global) -> Plain {
        Plain {
            schemas: Schemas::new(alloc),
            tables: Vec::new(alloc),
        }
    }

    pub(crate) fn schemas(&self) -> &Schemas {
        &self.schemas
    }

    /// The rows of the table with the name, or none.
    fn rows(&self, alloc: Global, name: Option<&Name>) -> Result<Rows, WantOfMemory> {
        match name {
            Some(name) => self.rows_named(alloc, name),
            None => Ok(Rows::new(alloc)),
        }
    }

    fn rows_named(&self, alloc: Global, name: &Name) -> Result<Rows, WantOfMemory> {
        for table in &self.tables {
            if table.is_named(name) {
                return table.rows(alloc);
            }
        }
        Ok(Rows::new(alloc))
    }

    /// All rows that a statement could read.
    fn whole(&self, alloc: Global, statement: &Stmt) -> Result<RangeRows, WantOfMemory> {
        let left = self.rows(alloc, left(statement))?;
        let right = self.beside(alloc, right(statement), left.len())?;
        Ok(RangeRows { left, right })
    }

    /// The rows of the table with the name, so many times.
    fn beside(
        &self,
        alloc: Global,
        name: Option<&Name>,
        times: usize,
    ) -> Result<RowLists, WantOfMemory> {
        let mut lists = RowLists::new(alloc);
        for _ in 0..times {
            lists.push(self.rows(alloc, name)?)?;
        }
        Ok(lists)
    }

    fn evaluated(&self, alloc: Global, statement: &Stmt) -> Result<Outcome, WantOfMemory>
        requires { IsEvaluated statement.now }
    {
        let rows = self.whole(alloc, statement)?;
        eval(alloc, statement, &self.schemas, &rows)
    }

    fn create(&mut self, alloc: Global, schema: &Schema) -> Result<SqlReply, WantOfMemory> {
        let table = Table::new(alloc, schema.table.copy(alloc)?);
        self.schemas.push(schema.copy(alloc)?)?;
        self.tables.push(table)?;
        Ok(SqlReply::Ok(0))
    }

    fn make(&mut self, alloc: Global, change: &Change) -> Result<(), WantOfMemory> {
        for table in &mut self.tables {
            if table.is_named(&change.table) {
                table.make(alloc, change)?;
            }
        }
        Ok(())
    }

    fn make_all(&mut self, alloc: Global, changes: &Changes) -> Result<SqlReply, WantOfMemory> {
        for change in changes.as_slice() {
            self.make(alloc, change)?;
        }
        Ok(SqlReply::Ok(changes.len() as u64))
    }

    /// Makes the table, or else the changes of rows.
    fn take(
        &mut self,
        alloc: Global,
        schema: Option<&Schema>,
        changes: &Changes,
    ) -> Result<SqlReply, WantOfMemory> {
        match schema {
            Some(schema) => self.create(alloc, schema),
            None => self.make_all(alloc, changes),
        }
    }

    fn told(
        &mut self,
        alloc: Global,
        schema: Option<&Schema>,
        outcome: Outcome,
    ) -> Result<SqlReply, WantOfMemory> {
        match outcome {
            Outcome::Rows(rows) => Ok(SqlReply::Rows(rows)),
            Outcome::Refused(reply) => Ok(reply),
            Outcome::Changes(changes) => self.take(alloc, schema, &changes),
            Outcome::Duplicate(repeated) => Ok(SqlReply::Duplicate(repeated.key)),
        }
    }

    fn reply(&mut self, alloc: Global, statement: &Stmt) -> Result<SqlReply, WantOfMemory> {
        if !is_evaluated(statement) {
            return Ok(SqlReply::NoTransaction);
        }
        let outcome = self.evaluated(alloc, statement)?;
        self.told(alloc, made(statement), outcome)
    }

    fn run(&mut self, alloc: Global, text: &[u8]) -> Result<SqlReply, WantOfMemory> {
        match parse(alloc, text)? {
            Ok(statement) => self.reply(alloc, &statement),
            Err(syntax) => Ok(SqlReply::Syntax(syntax.at)),
        }
    }

    /// What the text is answered, as it is printed.
    pub(crate) fn answer(&mut self, alloc: Global, text: &[u8]) -> Result<Text, WantOfMemory> {
        let reply = self.run(alloc, text)?;
        reply_text(alloc, b"", &reply)
    }
}
