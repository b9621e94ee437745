//! A reader of a statement, which asks for one page after the other.
ghost use Rattle.std.specs.Prelude.{◌≡◌, true, false, Some, None, is_some, IfOk, OnOk, IsTrue, ◌↔◌};
ghost use Rattle.sql_statements.specs.declared.statements.Stmt.{Stmt};
ghost use Rattle.question_tree.specs.Questions.{wanted, told, after};
ghost use Rattle.range_reader.specs.Finding.{Asked};
ghost use Rattle.statement_reader.specs.Decoding.{Decoder, Decodes};
ghost use Rattle.statement_reader.specs.Question.{question};
ghost use Rattle.statement_reader.specs.Machine as machine;
ghost use Rattle.statement_reader.specs.Machine.{IsOpen, IsReady, Ready, present, reading_of};

use crate::progress::Progress;
use crate::tables::Found;
use page_image::Page;
use page_view::LeafItem;
use range_reader::{Fetch, RangeReader, Snapshot};
use rm_base::{Items, WantOfMemory};
use sql_statements::Stmt;
use std::alloc::Global;
use std::mem;

/// Reads what a statement needs. It asks for one page after the other, and is given each.
#[derive(Drop)]
pub struct StatementReader {
    reader: Option<RangeReader>,
    progress: Progress,
}

impl StatementReader {
    pub fn new(
        alloc: Global,
        snapshot: Snapshot,
        statement: &Stmt,
    ) -> Result<StatementReader, WantOfMemory>
        ensures asks { (d : Decoder)
            → IfOk result (λ r. reading_of d statement.now r ≡ question d snapshot statement.now) }
        ensures ready { IfOk result IsReady }
    {
        let mut progress = Progress::new(alloc, snapshot);
        let reader = progress.begin(alloc, statement)?;
        Ok(StatementReader { reader, progress })
    }

    /// The page that is wanted next. None where all is known, or no more can be.
    #[tactic(auto, using(crate::proofs::ReaderLaws::settled_in, crate::proofs::ReaderLaws::present_wants, crate::proofs::ReaderLaws::none_wants, crate::proofs::ReaderLaws::reading_wants, crate::proofs::ReaderLaws::reading_wants_none))]
    pub fn next(&self) -> Option<Fetch>
        requires { IsReady self.now }
        ensures present { result ≡ wanted (present self.now) }
        ensures wanted { (d : Decoder) (st : Stmt) → result ≡ wanted (reading_of d st self.now) }
    {
        match &self.reader {
            None => None,
            Some(reader) => reader.next(),
        }
    }

    /// Whether this is the page that is wanted, and one that can be given.
    #[tactic(auto, using(crate::proofs::ReaderLaws::settled_in, crate::proofs::ReaderLaws::present_asks, crate::proofs::ReaderLaws::none_asks, crate::proofs::ReaderLaws::reading_asks, crate::proofs::ReaderLaws::reading_asks_none))]
    pub fn takes(&self, page: &Page) -> bool
        requires { IsReady self.now }
        ensures present { IsTrue result ↔ Asked (present self.now) page.now }
        ensures asked { (d : Decoder) (st : Stmt)
            → IsTrue result ↔ Asked (reading_of d st self.now) page.now }
    {
        match &self.reader {
            None => false,
            Some(reader) => reader.takes(page),
        }
    }

    /// Takes the page that `next` names, of the statement that was begun.
    pub fn give(&mut self, alloc: Global, statement: &Stmt, page: &Page) -> Result<(), WantOfMemory>
        requires ready { IsReady self.old }
        requires asked { Asked (present self.old) page.now }
        ensures after { (d : Decoder) → Decodes d
            → OnOk result (reading_of d statement.now self.new ≡ after
            (reading_of d statement.now self.old) page.now) }
        ensures ready { OnOk result (IsReady self.new) }
    {
        self.hand(alloc, page)?;
        self.go_on(alloc, statement)
    }

    #[tactic(auto, using(crate::proofs::ReaderLaws::nothing_present, crate::proofs::ReaderLaws::settled_in, crate::proofs::ReaderLaws::asked_in, crate::proofs::ReaderLaws::handed, crate::proofs::ReaderLaws::handed_open))]
    fn hand(&mut self, alloc: Global, page: &Page) -> Result<(), WantOfMemory>
        requires ready { IsReady self.old }
        requires asked { Asked (present self.old) page.now }
        ensures after { (d : Decoder) (st : Stmt)
            → OnOk result (reading_of d st self.new ≡ after (reading_of d st self.old) page.now) }
        ensures open { OnOk result (IsOpen self.new) }
    {
        match &mut self.reader {
            None => Ok(()),
            Some(reader) => reader.give(alloc, page),
        }
    }

    #[tactic(auto, using(crate::proofs::ReaderLaws::open_settled))]
    fn is_waiting(&self) -> bool
        requires { IsOpen self.now }
        ensures { result ≡ is_some (wanted (present self.now)) }
    {
        match &self.reader {
            None => false,
            Some(reader) => reader.next().is_some(),
        }
    }

    /// The versions that were found in the present range.
    #[tactic(auto, using(crate::proofs::ReaderLaws::open_settled))]
    fn take_items(&mut self) -> Option<Items<LeafItem>>
        requires { IsOpen self.old }
        ensures items { result ≡ told (present self.old) }
        ensures progress { self.new.progress ≡ self.old.progress }
    {
        match mem::replace(&mut self.reader, None) {
            None => None,
            Some(reader) => reader.into_items(),
        }
    }

    /// Goes on where the present range is read.
    #[tactic(auto, using(crate::proofs::ReaderLaws::waits_ready, crate::proofs::ReaderLaws::range_stops, crate::proofs::ReaderLaws::range_ends))]
    fn go_on(&mut self, alloc: Global, statement: &Stmt) -> Result<(), WantOfMemory>
        requires { IsOpen self.old }
        ensures same { (d : Decoder) → Decodes d
            → OnOk result (reading_of d statement.now self.new ≡ reading_of d statement.now
            self.old) }
        ensures ready { OnOk result (IsReady self.new) }
    {
        if self.is_waiting() {
            return Ok(());
        }
        match self.take_items() {
            None => {
                self.reader = self.progress.stop();
                Ok(())
            }
            Some(items) => {
                self.reader = self.progress.take(alloc, statement, items.as_slice())?;
                Ok(())
            }
        }
    }

    /// What was found. None where a page is wanted still, or no more can be known.
    #[tactic(auto, using(crate::proofs::ReaderLaws::found_told))]
    pub fn into_found(self) -> Option<Found>
        requires { IsReady self }
        ensures { (d : Decoder) (st : Stmt) → result ≡ told (reading_of d st self) }
    {
        let StatementReader { progress, .. } = self;
        progress.into_found()
    }
}
