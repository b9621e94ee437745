//! A reader that keeps its statement.
ghost use Rattle.std.specs.Prelude.{◌≡◌, IfOk, OnErr, OnOk, IsTrue, ◌↔◌, option_map};
ghost use Rattle.sql_database.specs.Statements.{IsEvaluated};
ghost use Rattle.question_tree.specs.Questions.{wanted, told, after, stops};
ghost use Rattle.range_reader.specs.Finding.{Asked};
ghost use Rattle.statement_reader.specs.Kept.{asking_of};
ghost use Rattle.statement_reader.specs.Machine.{IsReady, present, reading_of};
ghost use Rattle.statement_reader.specs.Reads.{IsOutcomeOf, read_of, reads};
ghost use Rattle.statement_reader.specs.Spelling.{decoder};

use crate::reader::StatementReader;
use crate::tables::Found;
use page_image::Page;
use range_reader::{Fetch, Snapshot};
use rm_base::WantOfMemory;
use sql_exec::{Outcome, eval};
use sql_statements::Stmt;
use std::alloc::Global;
use std::marker::Model;
use std::mem;

/// A statement, and what was found for it.
#[derive(Drop)]
pub struct Read {
    pub statement: Stmt,
    pub found: Found,
}

impl Read {
    /// What the statement answers over what was found.
    pub fn outcome(&self, alloc: Global) -> Result<Outcome, WantOfMemory>
        requires { IsEvaluated self.now.statement }
        ensures { IfOk result (λ o. IsOutcomeOf self.now o) }
    {
        eval(
            alloc,
            &self.statement,
            &self.found.schemas,
            &self.found.rows,
        )
    }
}

/// What was found, with its statement.
fn read_with(statement: Stmt, found: Option<Found>) -> Option<Read>
    ensures { result ≡ option_map (read_of statement) found }
{
    match found {
        None => None,
        Some(found) => Some(Read { statement, found }),
    }
}

/// The reader after the page.
fn read_on(
    alloc: Global,
    reader: StatementReader,
    statement: &Stmt,
    page: &Page,
) -> Result<StatementReader, WantOfMemory>
    requires ready { IsReady reader }
    requires asked { Asked (present reader) page.now }
    ensures after { IfOk result
        (λ new. reading_of decoder statement.now new ≡ after (reading_of decoder statement.now reader)
        page.now) }
    ensures ready { IfOk result IsReady }
{
    let mut reader = reader;
    reader.give(alloc, statement, page)?;
    Ok(reader)
}

/// Reads what a statement needs, and keeps the statement. It asks for one page after the other, and is
/// given each.
#[derive(Drop)]
pub struct AskingReader {
    statement: Stmt,
    reader: Option<StatementReader>,
}

impl Model for AskingReader {
    ghost use Rattle.std.specs.Coded.{codes};
    ghost use Rattle.sql_statements.specs.contracts.expressions.Expr as e;
    ghost use Rattle.statement_reader.specs.Kept.{Kept, ReadyIn};

    ghost Value = { Kept };

    ghost coded = { Prim.hlevel (codes, e.the_row.coded) };

    ghost view = { λ r. record { statement = r.statement; reader = r.reader } };

    ghost invariant = { λ r. ReadyIn r.reader };
}

impl AskingReader {
    /// Begins to read a statement.
    #[tactic(auto, using(crate::proofs::KeptLaws::begins))]
    pub fn begin(
        alloc: Global,
        snapshot: Snapshot,
        statement: Stmt,
    ) -> Result<AskingReader, WantOfMemory>
        ensures { IfOk result (λ r. asking_of r ≡ reads snapshot statement) }
    {
        let reader = StatementReader::new(alloc, snapshot, &statement)?;
        Ok(AskingReader {
            statement,
            reader: Some(reader),
        })
    }

    /// The page that is wanted next. None where all is known, or no more can be.
    #[tactic(auto, using(crate::proofs::KeptLaws::ready_in))]
    pub fn next(&self) -> Option<Fetch>
        ensures { result ≡ wanted (asking_of self.now) }
    {
        match &self.reader {
            None => None,
            Some(reader) => reader.next(),
        }
    }

    /// Whether this is the page that is wanted, and one that can be given.
    #[tactic(auto, using(crate::proofs::KeptLaws::ready_in))]
    pub fn takes(&self, page: &Page) -> bool
        ensures { IsTrue result ↔ Asked (asking_of self.now) page.now }
    {
        match &self.reader {
            None => false,
            Some(reader) => reader.takes(page),
        }
    }

    /// Takes the page that `next` names. After want of memory the statement is given up.
    #[tactic(auto, using(crate::proofs::KeptLaws::nothing_asked, crate::proofs::KeptLaws::ready_in, crate::proofs::KeptLaws::given_up))]
    pub fn give(&mut self, alloc: Global, page: &Page) -> Result<(), WantOfMemory>
        requires asked { Asked (asking_of self.old) page.now }
        ensures after { OnOk result (asking_of self.new ≡ after (asking_of self.old) page.now) }
        ensures given_up { OnErr result (asking_of self.new ≡ stops) }
    {
        match mem::replace(&mut self.reader, None) {
            None => Ok(()),
            Some(reader) => {
                self.reader = Some(read_on(alloc, reader, &self.statement, page)?);
                Ok(())
            }
        }
    }

    /// What was read. None where a page is wanted still, or no more can be known.
    #[tactic(auto, using(crate::proofs::KeptLaws::ready_in))]
    pub fn into_read(self) -> Option<Read>
        ensures { result ≡ told (asking_of self) }
    {
        let AskingReader { statement, reader } = self;
        match reader {
            None => None,
            Some(reader) => read_with(statement, reader.into_found()),
        }
    }
}
