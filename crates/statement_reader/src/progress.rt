//! How far a statement has come, and which range it reads next.
ghost use Rattle.std.specs.Prelude.{◌≡◌, ◌≢◌, ◌<◌, ◌≤◌, ◌+◌, ◌++◌, ◌∷◌, [], ℕ, true, false, Some, None, drop, length, slice_get, IfOk, OnOk, option_map};
ghost use Rattle.rm_base.specs.declared.limits.TheConstants.{CATALOG_ROOT_PAGE_ID};
ghost use Rattle.sql_exec.specs.Answer as answer;
ghost use Rattle.sql_statements.specs.declared.statements.Stmt.{Stmt};
ghost use Rattle.question_tree.specs.Questions.{stops, then_on, tells};
ghost use Rattle.range_reader.specs.Finding.{find};
ghost use Rattle.range_reader.specs.Machine.{finding_of, is_settled};
ghost use Rattle.statement_reader.specs.Decoding.{Decoder, Decodes};
ghost use Rattle.statement_reader.specs.Question as asked;
ghost use Rattle.statement_reader.specs.Question.{question, told_table};
ghost use Rattle.statement_reader.specs.Machine as machine;
ghost use Rattle.statement_reader.specs.Machine.{Begins, Ready, after_left, after_lefts, after_right, find_at, finding_in, lefts_left, rights_left, root_in, rows_left, rows_with, after_row, stage_of, stage_with};

use crate::decoding::{rows_in, schemas_of, table_in};
use crate::naming::{is_join, left_range, right_range};
use crate::tables::{Found, Table};
use page_view::LeafItem;
use range_reader::{RangeReader, Snapshot};
use rm_base::{CATALOG_ROOT_PAGE_ID, KeyRange, PageId, Ranges, WantOfMemory};
use sql_exec::{RangeRows, RowLists};
use sql_plan::ranges;
use sql_statements::Stmt;
use sql_values::{Rows, Schemas};
use std::alloc::Global;
use std::mem;

/// What is read.
#[derive(Clone, Copy, Debug, PartialEq, Eq)]
pub(crate) enum Stage {
    /// The only or left table, in the catalog.
    Left,
    /// The right table, in the catalog.
    Right,
    /// The rows of the only or left table.
    Lefts,
    /// Those of the right table for a left row.
    Rights,
    /// Nothing: all is known.
    Done,
    /// Nothing: an item could not be read.
    Stopped,
}

/// What is known of a statement, and where it stands.
#[derive(Drop)]
pub(crate) struct Progress {
    snapshot: Snapshot,
    stage: Stage,
    left: Option<Table>,
    right: Option<Table>,
    schemas: Schemas,
    lefts: Rows,
    lists: RowLists,
    rows: Rows,
    ranges: Ranges,
    at: usize,
    next: usize,
}

/// The root of the catalog's tree.
fn catalog_root() -> PageId
    ensures { result ≡ CATALOG_ROOT_PAGE_ID }
{
    PageId::new(CATALOG_ROOT_PAGE_ID).unwrap()
}

fn root_of(table: &Option<Table>) -> Option<PageId>
    ensures { result ≡ root_in table.now }
{
    match table {
        None => None,
        Some(table) => Some(table.root),
    }
}

impl Progress {
    pub(crate) fn new(alloc: Global, snapshot: Snapshot) -> Progress
        ensures { result.snapshot ≡ snapshot }
    {
        Progress {
            snapshot,
            stage: Stage::Left,
            left: None,
            right: None,
            schemas: Schemas::new(alloc),
            lefts: Rows::new(alloc),
            lists: RowLists::new(alloc),
            rows: Rows::new(alloc),
            ranges: Ranges::new(alloc),
            at: 0,
            next: 0,
        }
    }

    /// Nothing more can be known.
    #[tactic(auto, using(crate::proofs::ProgressLaws::stopped, crate::proofs::ProgressLaws::stopped_ready))]
    pub(crate) fn stop(&mut self) -> Option<RangeReader>
        ensures stopped { (d : Decoder) (st : Stmt) → stage_of d st self.new result ≡ stops }
        ensures ready { Ready self.new result }
    {
        self.stage = Stage::Stopped;
        None
    }

    /// Looks a name up in the catalog.
    #[tactic(auto, using(crate::proofs::ProgressLaws::looked_ready))]
    fn look_up(
        &mut self,
        alloc: Global,
        stage: Stage,
        range: &KeyRange,
    ) -> Result<Option<RangeReader>, WantOfMemory>
        requires { machine.is_naming stage ≡ true }
        ensures finds { IfOk result
            (λ o. finding_in o ≡ find self.old.snapshot CATALOG_ROOT_PAGE_ID range.now) }
        ensures at { OnOk result (self.new ≡ record self.old { stage = stage }) }
        ensures ready { IfOk result (Ready self.new) }
    {
        let reader = RangeReader::new(alloc, self.snapshot, catalog_root(), range)?;
        self.stage = stage;
        Ok(Some(reader))
    }

    /// The first range of the statement.
    #[tactic(auto, using(crate::proofs::ProgressLaws::begins_named, crate::proofs::ProgressLaws::begins_unnamed))]
    pub(crate) fn begin(
        &mut self,
        alloc: Global,
        statement: &Stmt,
    ) -> Result<Option<RangeReader>, WantOfMemory>
        ensures same { (d : Decoder)
            → IfOk result (λ o. stage_of d statement.now self.new o ≡ question d self.old.snapshot
            statement.now) }
        ensures ready { IfOk result (Ready self.new) }
    {
        match left_range(alloc, statement)? {
            Some(range) => self.look_up(alloc, Stage::Left, &range),
            None => {
                self.left = None;
                self.name_right(alloc, statement)
            }
        }
    }

    /// Goes on after the left table is known.
    #[tactic(auto, using(crate::proofs::ProgressLaws::right_named, crate::proofs::ProgressLaws::right_unnamed))]
    fn name_right(
        &mut self,
        alloc: Global,
        statement: &Stmt,
    ) -> Result<Option<RangeReader>, WantOfMemory>
        ensures same { (d : Decoder)
            → IfOk result (λ o. stage_of d statement.now self.new o ≡ after_left d statement.now
            self.old.snapshot self.old.left) }
        ensures ready { IfOk result (Ready self.new) }
    {
        match right_range(alloc, statement)? {
            Some(range) => self.look_up(alloc, Stage::Right, &range),
            None => {
                self.right = None;
                self.read_lefts(alloc, statement)
            }
        }
    }

    /// Goes on after both tables are known.
    #[tactic(auto, using(crate::proofs::ProgressLaws::no_left, crate::proofs::ProgressLaws::some_left))]
    fn read_lefts(
        &mut self,
        alloc: Global,
        statement: &Stmt,
    ) -> Result<Option<RangeReader>, WantOfMemory>
        ensures same { (d : Decoder)
            → IfOk result (λ o. stage_of d statement.now self.new o ≡ after_right d statement.now
            self.old.snapshot self.old.left self.old.right) }
        ensures ready { IfOk result (Ready self.new) }
    {
        self.schemas = schemas_of(alloc, &self.left, &self.right)?;
        self.ranges = ranges(alloc, statement, &self.schemas, None)?;
        self.at = 0;
        self.rows = Rows::new(alloc);
        match root_of(&self.left) {
            None => self.read_rights(alloc, statement, Rows::new(alloc)),
            Some(root) => self.next_left(alloc, statement, root),
        }
    }

    /// The read of the next range in a tree.
    fn next_reader(&self, alloc: Global, root: PageId) -> Result<RangeReader, WantOfMemory>
        requires { self.now.at < length self.now.ranges }
        ensures finds { IfOk result
            (λ f. finding_of f ≡ find_at self.now.snapshot root
            (slice_get self.now.ranges self.now.at)) }
        ensures settled { IfOk result (λ f. is_settled f ≡ true) }
        ensures asks { IfOk result (λ f. machine.IsAsking f) }
    {
        RangeReader::new(
            alloc,
            self.snapshot,
            root,
            self.ranges.get(self.at).unwrap(),
        )
    }

    /// The next range of the left table, or what follows them.
    #[tactic(auto, using(crate::proofs::ProgressLaws::lefts_end, crate::proofs::ProgressLaws::lefts_go_on, crate::proofs::ProgressLaws::lefts_ready))]
    fn next_left(
        &mut self,
        alloc: Global,
        statement: &Stmt,
        root: PageId,
    ) -> Result<Option<RangeReader>, WantOfMemory>
        requires { Some root ≡ root_in self.old.left }
        ensures same { (d : Decoder)
            → IfOk result (λ o. stage_of d statement.now self.new o ≡ lefts_left d statement.now
            self.old) }
        ensures ready { IfOk result (Ready self.new) }
    {
        if self.at >= self.ranges.len() {
            let rows = mem::replace(&mut self.rows, Rows::new(alloc));
            return self.read_rights(alloc, statement, rows);
        }
        let reader = self.next_reader(alloc, root)?;
        self.at += 1;
        self.stage = Stage::Lefts;
        Ok(Some(reader))
    }

    /// Goes on after the left rows are known.
    #[tactic(auto, using(crate::proofs::ProgressLaws::alone, crate::proofs::ProgressLaws::paired, crate::proofs::ProgressLaws::done_ready))]
    fn read_rights(
        &mut self,
        alloc: Global,
        statement: &Stmt,
        lefts: Rows,
    ) -> Result<Option<RangeReader>, WantOfMemory>
        ensures same { (d : Decoder)
            → IfOk result (λ o. stage_of d statement.now self.new o ≡ after_lefts d statement.now
            self.old lefts) }
        ensures ready { IfOk result (Ready self.new) }
    {
        self.lefts = lefts;
        self.lists = RowLists::new(alloc);
        self.next = 0;
        if !is_join(statement) {
            self.stage = Stage::Done;
            return Ok(None);
        }
        self.next_row(alloc, statement)
    }

    /// The first range of the right table for the next left row that has one.
    #[tactic(auto, using(crate::proofs::ProgressLaws::rows_end, crate::proofs::ProgressLaws::done_ready))]
    fn next_row(
        &mut self,
        alloc: Global,
        statement: &Stmt,
    ) -> Result<Option<RangeReader>, WantOfMemory>
        ensures same { (d : Decoder)
            → IfOk result (λ o. stage_of d statement.now self.new o ≡ rows_left d statement.now
            self.old) }
        ensures ready { IfOk result (Ready self.new) }
    {
        while self.next < self.lefts.len() {
            let after = self.next + 1;
            match self.begin_row(alloc, statement, after)? {
                Some(reader) => return Ok(Some(reader)),
                None => {}
            }
        }
        self.stage = Stage::Done;
        Ok(None)
    }

    /// Begins with a left row. None where its right rows are known without a page.
    #[tactic(auto, using(crate::proofs::ProgressLaws::row_begins))]
    fn begin_row(
        &mut self,
        alloc: Global,
        statement: &Stmt,
        after: usize,
    ) -> Result<Option<RangeReader>, WantOfMemory>
        requires there { self.old.next < length self.old.lefts }
        requires after { after ≡ self.old.next + 1 }
        ensures begins { (d : Decoder) → IfOk result (Begins d statement.now self.old self.new) }
        ensures ready { IfOk result (λ o. machine.ReadyIfSome self.new o) }
        ensures lefts { OnOk result (self.new.lefts ≡ self.old.lefts) }
        ensures next { OnOk result (self.new.next ≡ self.old.next + 1) }
    {
        let row = self.lefts.get(self.next).unwrap();
        self.ranges = ranges(alloc, statement, &self.schemas, Some(row))?;
        self.at = 0;
        self.rows = Rows::new(alloc);
        self.next = after;
        self.first_right(alloc)
    }

    /// The first range of the right table, or no rows where there is none.
    #[tactic(auto, using(crate::proofs::ProgressLaws::right_absent, crate::proofs::ProgressLaws::right_empty, crate::proofs::ProgressLaws::right_begins, crate::proofs::ProgressLaws::rights_ready))]
    fn first_right(&mut self, alloc: Global) -> Result<Option<RangeReader>, WantOfMemory>
        requires at { self.old.at ≡ 0 }
        requires rows { self.old.rows ≡ [] }
        ensures begins { (d : Decoder) (st : Stmt)
            → IfOk result (machine.BeginsRight d st self.old self.new) }
        ensures ready { IfOk result (λ o. machine.ReadyIfSome self.new o) }
        ensures lefts { OnOk result (self.new.lefts ≡ self.old.lefts) }
        ensures next { OnOk result (self.new.next ≡ self.old.next) }
    {
        let Some(root) = root_of(&self.right) else {
            self.lists.push(Rows::new(alloc))?;
            return Ok(None);
        };
        if self.at >= self.ranges.len() {
            self.lists.push(Rows::new(alloc))?;
            return Ok(None);
        }
        let reader = self.next_reader(alloc, root)?;
        self.at += 1;
        self.stage = Stage::Rights;
        Ok(Some(reader))
    }

    /// The next range of the right table for the present left row, or what follows them.
    #[tactic(auto, using(crate::proofs::ProgressLaws::rights_end, crate::proofs::ProgressLaws::rights_go_on, crate::proofs::ProgressLaws::rights_ready))]
    fn next_right(
        &mut self,
        alloc: Global,
        statement: &Stmt,
        root: PageId,
    ) -> Result<Option<RangeReader>, WantOfMemory>
        requires { Some root ≡ root_in self.old.right }
        ensures same { (d : Decoder)
            → IfOk result (λ o. stage_of d statement.now self.new o ≡ rights_left d statement.now
            self.old) }
        ensures ready { IfOk result (Ready self.new) }
    {
        if self.at >= self.ranges.len() {
            let rows = mem::replace(&mut self.rows, Rows::new(alloc));
            self.lists.push(rows)?;
            return self.next_row(alloc, statement);
        }
        let reader = self.next_reader(alloc, root)?;
        self.at += 1;
        self.stage = Stage::Rights;
        Ok(Some(reader))
    }

    /// Goes on with the versions that were found.
    #[tactic(auto, using(crate::proofs::ProgressLaws::at_left, crate::proofs::ProgressLaws::at_right, crate::proofs::ProgressLaws::at_lefts, crate::proofs::ProgressLaws::at_rights, crate::proofs::ProgressLaws::at_done, crate::proofs::ProgressLaws::at_stopped, crate::proofs::ProgressLaws::done_ready, crate::proofs::ProgressLaws::stopped_ready))]
    pub(crate) fn take(
        &mut self,
        alloc: Global,
        statement: &Stmt,
        items: &[LeafItem],
    ) -> Result<Option<RangeReader>, WantOfMemory>
        ensures same { (d : Decoder) → Decodes d
            → IfOk result (λ o. stage_of d statement.now self.new o ≡ stage_with d statement.now
            self.old.stage self.old (tells items.now)) }
        ensures ready { IfOk result (Ready self.new) }
    {
        match self.stage {
            Stage::Left => self.take_left(alloc, statement, items),
            Stage::Right => self.take_right(alloc, statement, items),
            Stage::Lefts => self.take_lefts(alloc, statement, items),
            Stage::Rights => self.take_rights(alloc, statement, items),
            Stage::Done => Ok(None),
            Stage::Stopped => Ok(None),
        }
    }

    #[tactic(auto, using(crate::proofs::ProgressLaws::left_stops, crate::proofs::ProgressLaws::left_goes_on))]
    fn take_left(
        &mut self,
        alloc: Global,
        statement: &Stmt,
        items: &[LeafItem],
    ) -> Result<Option<RangeReader>, WantOfMemory>
        ensures same { (d : Decoder) → Decodes d
            → IfOk result (λ o. stage_of d statement.now self.new o ≡ then_on
            (told_table d items.now) (after_left d statement.now self.old.snapshot)) }
        ensures ready { IfOk result (Ready self.new) }
    {
        match table_in(alloc, items)? {
            None => Ok(self.stop()),
            Some(table) => {
                self.left = table;
                self.name_right(alloc, statement)
            }
        }
    }

    #[tactic(auto, using(crate::proofs::ProgressLaws::right_stops, crate::proofs::ProgressLaws::right_goes_on))]
    fn take_right(
        &mut self,
        alloc: Global,
        statement: &Stmt,
        items: &[LeafItem],
    ) -> Result<Option<RangeReader>, WantOfMemory>
        ensures same { (d : Decoder) → Decodes d
            → IfOk result (λ o. stage_of d statement.now self.new o ≡ then_on
            (told_table d items.now)
            (after_right d statement.now self.old.snapshot self.old.left)) }
        ensures ready { IfOk result (Ready self.new) }
    {
        match table_in(alloc, items)? {
            None => Ok(self.stop()),
            Some(table) => {
                self.right = table;
                self.read_lefts(alloc, statement)
            }
        }
    }

    #[tactic(auto, using(crate::proofs::ProgressLaws::rows_stop, crate::proofs::ProgressLaws::rows_absent, crate::proofs::ProgressLaws::lefts_taken))]
    fn take_lefts(
        &mut self,
        alloc: Global,
        statement: &Stmt,
        items: &[LeafItem],
    ) -> Result<Option<RangeReader>, WantOfMemory>
        ensures same { (d : Decoder) → Decodes d
            → IfOk result (λ o. stage_of d statement.now self.new o ≡ rows_with d self.old.snapshot
            self.old.left (after_lefts d statement.now self.old) self.old.rows
            (drop self.old.at self.old.ranges) (tells items.now)) }
        ensures ready { IfOk result (Ready self.new) }
    {
        let rows = mem::replace(&mut self.rows, Rows::new(alloc));
        let Some(root) = root_of(&self.left) else {
            return Ok(self.stop());
        };
        match rows_in(alloc, &self.left, items, rows)? {
            None => Ok(self.stop()),
            Some(rows) => {
                self.rows = rows;
                self.next_left(alloc, statement, root)
            }
        }
    }

    #[tactic(auto, using(crate::proofs::ProgressLaws::rows_stop, crate::proofs::ProgressLaws::rows_absent, crate::proofs::ProgressLaws::rights_taken))]
    fn take_rights(
        &mut self,
        alloc: Global,
        statement: &Stmt,
        items: &[LeafItem],
    ) -> Result<Option<RangeReader>, WantOfMemory>
        ensures same { (d : Decoder) → Decodes d
            → IfOk result (λ o. stage_of d statement.now self.new o ≡ rows_with d self.old.snapshot
            self.old.right (after_row d statement.now self.old) self.old.rows
            (drop self.old.at self.old.ranges) (tells items.now)) }
        ensures ready { IfOk result (Ready self.new) }
    {
        let rows = mem::replace(&mut self.rows, Rows::new(alloc));
        let Some(root) = root_of(&self.right) else {
            return Ok(self.stop());
        };
        match rows_in(alloc, &self.right, items, rows)? {
            None => Ok(self.stop()),
            Some(rows) => {
                self.rows = rows;
                self.next_right(alloc, statement, root)
            }
        }
    }

    /// What was found, once all is known.
    pub(crate) fn into_found(self) -> Option<Found>
        ensures { result ≡ machine.found_by self }
    {
        let Progress {
            stage,
            left,
            right,
            schemas,
            lefts,
            lists,
            ..
        } = self;
        match stage {
            Stage::Done => Some(Found {
                left,
                right,
                schemas,
                rows: RangeRows {
                    left: lefts,
                    right: lists,
                },
            }),
            _ => None,
        }
    }
}
