ghost use Rattle.std.specs.Prelude.{◌≡◌, ◌+◌, ◌++◌, [], IfOk, OnOk, option_map, Some, None};
ghost use Rattle.std.specs.List.{flat_map};
ghost use Rattle.sql_meaning.specs.Names.{scope};
ghost use Rattle.sql_meaning.specs.Evaluation.{value_in};
ghost use Rattle.sql_meaning.specs.Places.{placed_action};
ghost use Rattle.sql_meaning.specs.Ranges as spec;
ghost use Rattle.sql_meaning.specs.Terms.{term};
ghost use Rattle.sql_plan.specs.Ends.{action_range};

use crate::ends::{bytes_of, is_above};
use crate::narrowing::{Ends, Place, narrow};
use crate::places::{Keys, key_place, width_of};
use rm_base::{KeyRange, Name, Ranges, WantOfMemory};
use sql_meaning::{Action, Resolved, ResolvedList, ResolvedRows, resolve};
use sql_statements::Stmt;
use sql_values::{Row, Schemas, Value};
use std::alloc::Global;
use std::marker::Model;

/// The planner of one statement, whose names are resolved once for all its ranges. Contracts see the
/// statement and the schemas.
#[derive(Drop)]
pub struct Planner<'a> {
    statement: &'a Stmt,
    schemas: &'a Schemas,
    action: Option<Action>,
}

impl<'a> Model for Planner<'a> {
    ghost use Rattle.std.specs.Coded.{codes};
    ghost use Rattle.sql_statements.specs.contracts.expressions.Expr as e;
    ghost use Rattle.sql_plan.specs.Planned.{IsResolved, Planned};

    ghost Value = { Planned };

    ghost coded = { Prim.hlevel (codes, e.the_row.coded) };

    ghost view = { λ p. record { statement = p.statement.now; schemas = p.schemas.now } };

    ghost invariant = { λ p. IsResolved p.schemas.now p.statement.now p.action };
}

impl<'a> Planner<'a> {
    pub fn new(
        alloc: Global,
        statement: &'a Stmt,
        schemas: &'a Schemas,
    ) -> Result<Planner<'a>, WantOfMemory>
        ensures statement { IfOk result (λ p. p.statement ≡ statement.now) }
        ensures schemas { IfOk result (λ p. p.schemas ≡ schemas.now) }
    {
        match resolve(alloc, statement, schemas)? {
            Ok(action) => Ok(Planner {
                statement,
                schemas,
                action: Some(action),
            }),
            Err(_) => Ok(Planner {
                statement,
                schemas,
                action: None,
            }),
        }
    }

    pub fn schemas(&self) -> &Schemas
        ensures { result.now ≡ self.now.schemas }
    {
        self.schemas
    }

    /// The ranges of keys that the rows of the statement can have: of its only or left table, or with a left
    /// row of its right table. A statement that is refused before anything is evaluated has none.
    #[tactic(auto, using(crate::proofs::Statements::refused_none, crate::proofs::Statements::left_if, crate::proofs::Statements::right_if))]
    pub fn ranges(&self, alloc: Global, left_row: Option<&Row>) -> Result<Ranges, WantOfMemory>
        ensures { IfOk result (λ r. r ≡ spec.ranges self.now.schemas self.now.statement (option_map (λ row. row.now) left_row.entry)) }
    {
        let Some(action) = &self.action else {
            return Ok(Ranges::new(alloc));
        };
        match left_row {
            None => left_ranges(alloc, self.statement, self.schemas, action),
            Some(row) => right_ranges(alloc, self.statement, self.schemas, action, row),
        }
    }
}

/// The ranges of a statement, for a caller that asks once.
pub fn ranges(
    alloc: Global,
    statement: &Stmt,
    schemas: &Schemas,
    left_row: Option<&Row>,
) -> Result<Ranges, WantOfMemory>
    ensures { IfOk result (λ r. r ≡ spec.ranges schemas.now statement.now (option_map (λ row. row.now) left_row.entry)) }
{
    Planner::new(alloc, statement, schemas)?.ranges(alloc, left_row)
}

#[tactic(auto, using(crate::proofs::Statements::insert_left, crate::proofs::Statements::update_left, crate::proofs::Statements::delete_left, crate::proofs::Statements::select_left, crate::proofs::Statements::join_left))]
fn left_ranges(
    alloc: Global,
    statement: &Stmt,
    schemas: &Schemas,
    action: &Action,
) -> Result<Ranges, WantOfMemory>
    requires { action.now ≡ placed_action (scope schemas.now statement.now) statement.now }
    ensures { IfOk result (λ r. r ≡ spec.left_ranges schemas.now statement.now) }
{
    match statement {
        Stmt::Insert { table, .. } => insert_ranges(alloc, key_place(schemas, table), action),
        Stmt::Update { table, .. } => left_range(alloc, schemas, table, None, action),
        Stmt::Delete { table, .. } => left_range(alloc, schemas, table, None, action),
        Stmt::Select(select) => match &select.join {
            Some(join) => left_range(alloc, schemas, &select.left, Some(&join.right), action),
            None => left_range(alloc, schemas, &select.left, None, action),
        },
        Stmt::Create { .. } | Stmt::Begin | Stmt::Commit | Stmt::Rollback => Ok(Ranges::new(alloc)),
    }
}

#[tactic(auto, using(crate::proofs::Statements::join_right, crate::proofs::Statements::select_right))]
fn right_ranges(
    alloc: Global,
    statement: &Stmt,
    schemas: &Schemas,
    action: &Action,
    row: &Row,
) -> Result<Ranges, WantOfMemory>
    requires { action.now ≡ placed_action (scope schemas.now statement.now) statement.now }
    ensures { IfOk result (λ r. r ≡ spec.right_ranges schemas.now statement.now row.now) }
{
    match statement {
        Stmt::Select(select) => match &select.join {
            Some(join) => { right_range(alloc, schemas, &select.left, &join.right, action, row) }
            None => Ok(Ranges::new(alloc)),
        },
        Stmt::Insert { .. }
        | Stmt::Update { .. }
        | Stmt::Delete { .. }
        | Stmt::Create { .. }
        | Stmt::Begin
        | Stmt::Commit
        | Stmt::Rollback => Ok(Ranges::new(alloc)),
    }
}

/// The range of the right table's key, for a left row.
fn right_range(
    alloc: Global,
    schemas: &Schemas,
    left: &Name,
    right: &Name,
    action: &Action,
    row: &Row,
) -> Result<Ranges, WantOfMemory>
    ensures { IfOk result (λ r. r ≡ action_range (spec.key_places schemas.now left.now (Some right.now)) (spec.width_of schemas.now left.now + spec.key_place schemas.now right.now) (Some row.now) action.now) }
{
    let keys = Keys::of(schemas, left, Some(right));
    let key = width_of(schemas, left) + key_place(schemas, right);
    let place = Place {
        keys,
        key,
        row: Some(row),
    };
    range_of(alloc, action, &place)
}

/// The test of what a statement does.
fn test_of(action: &Action) -> Option<&Resolved>
    ensures { option_map (λ test. test.now) result ≡ spec.test_of_action action.now }
{
    match action {
        Action::Update { test, .. } | Action::Delete { test } | Action::Select { test, .. } =>
            test.as_ref(),
        Action::Create | Action::Insert { .. } | Action::Control => None,
    }
}

/// The range of the only or left table's key.
fn left_range(
    alloc: Global,
    schemas: &Schemas,
    left: &Name,
    right: Option<&Name>,
    action: &Action,
) -> Result<Ranges, WantOfMemory>
    ensures { IfOk result (λ r. r ≡ action_range (spec.key_places schemas.now left.now (option_map (λ t. t.now) right.entry)) (spec.key_place schemas.now left.now) None action.now) }
{
    let keys = Keys::of(schemas, left, right);
    let key = key_place(schemas, left);
    let place = Place {
        keys,
        key,
        row: None,
    };
    range_of(alloc, action, &place)
}

/// The range that the test of what a statement does leaves, or none.
fn range_of(alloc: Global, action: &Action, place: &Place) -> Result<Ranges, WantOfMemory>
    ensures { IfOk result (λ r. r ≡ action_range place.now.keys place.now.key place.now.row action.now) }
{
    match test_of(action) {
        Some(test) => range_by(alloc, test, place),
        None => range_between(
            alloc,
            Ends {
                low: None,
                high: None,
            },
        ),
    }
}

#[tactic(auto, using(crate::proofs::Leading::greatest_of, crate::proofs::Leading::least_of))]
fn range_by(alloc: Global, test: &Resolved, place: &Place) -> Result<Ranges, WantOfMemory>
    ensures { IfOk result (λ r. r ≡ spec.range_at place.now.key place.now.row (spec.bounds_of place.now.keys (Some (term test.now)))) }
{
    let mut ends = Ends {
        low: None,
        high: None,
    };
    narrow(alloc, test, place, &mut ends)?;
    range_between(alloc, ends)
}

/// The range between the ends, where the low one is not above the high one.
fn range_between(alloc: Global, ends: Ends) -> Result<Ranges, WantOfMemory>
    ensures { IfOk result (λ r. r ≡ spec.range_between ends.low ends.high) }
{
    let Ends { low, high } = ends;
    let mut ranges = Ranges::new(alloc);
    if is_above(&low, &high) {
        return Ok(ranges);
    }
    ranges.push(KeyRange { low, high })?;
    Ok(ranges)
}

fn insert_ranges(alloc: Global, key: usize, action: &Action) -> Result<Ranges, WantOfMemory>
    ensures { IfOk result (λ r. r ≡ spec.insert_ranges key action.now) }
{
    match action {
        Action::Insert { tuples } => ranges_of_tuples(alloc, key, tuples),
        Action::Create
        | Action::Update { .. }
        | Action::Delete { .. }
        | Action::Select { .. }
        | Action::Control => Ok(Ranges::new(alloc)),
    }
}

fn ranges_of_tuples(
    alloc: Global,
    key: usize,
    tuples: &ResolvedRows,
) -> Result<Ranges, WantOfMemory>
    ensures { IfOk result (λ r. r ≡ flat_map (spec.tuple_range key) tuples.now) }
{
    let mut ranges = Ranges::new(alloc);
    for tuple in tuples.as_slice() {
        append_range(alloc, &mut ranges, key, tuple)?;
    }
    Ok(ranges)
}

fn append_range(
    alloc: Global,
    ranges: &mut Ranges,
    key: usize,
    tuple: &ResolvedList,
) -> Result<(), WantOfMemory>
    ensures { OnOk result (ranges.new ≡ ranges.old ++ spec.tuple_range key tuple.now) }
{
    match tuple.as_slice().get(key) {
        Some(expression) => append_own(alloc, ranges, expression),
        None => Ok(()),
    }
}

/// Adds the range of the key alone that an expression gives, where it gives one.
fn append_own(alloc: Global, ranges: &mut Ranges, expression: &Resolved) -> Result<(), WantOfMemory>
    ensures { OnOk result (ranges.new ≡ ranges.old ++ spec.own_range (value_in [] (term expression.now))) }
{
    match expression.value(alloc, &[])? {
        Err(_) | Ok(Value::Null) => Ok(()),
        Ok(value) => {
            let low = bytes_of(alloc, &value)?;
            let high = bytes_of(alloc, &value)?;
            ranges.push(KeyRange {
                low: Some(low),
                high: Some(high),
            })
        }
    }
}
