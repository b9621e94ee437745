ghost use Rattle.std.specs.Prelude.{◌≡◌, ◌==◌, zip, length, slice_get, false};
ghost use Rattle.std.specs.Option.{option_map_or};
ghost use Rattle.std.specs.List.{list_all};
ghost use Rattle.sql_meaning.specs.Kinds as kinds;
ghost use Rattle.sql_meaning.specs.Refusals.{is_right, suits};
ghost use Rattle.sql_meaning.specs.Refusals as spec;

use crate::actions::{Action, Output, SetPlace, SetPlaces, Total, Totals};
use crate::fields::Field;
use crate::kinds::{is_number, is_truth, is_value, kind_of, takes};
use crate::resolved::{Resolved, ResolvedList, ResolvedRows};
use rm_base::Names;
use sql_statements::{ExprRows, Stmt};
use sql_values::Sort;

/// Whether each operand has the sort of its place.
pub fn has_right_sorts(fields: &[Field], key: usize, action: &Action) -> bool
    ensures { result ≡ is_right fields.now key action.now }
{
    match action {
        Action::Create | Action::Control => true,
        Action::Insert { tuples } => { all_tuples_fit(fields, tuples) }
        Action::Update { sets, test } => {
            all_sets_right(fields, key, sets) && is_condition(fields, test)
        }
        Action::Delete { test } => is_condition(fields, test),
        Action::Select { output, test, .. } => {
            output_right(fields, output) && is_condition(fields, test)
        }
    }
}

/// Each tuple has as many values as columns are named, or as the table has where none are.
pub fn counts_match(fields: &[Field], statement: &Stmt) -> bool
    ensures { result ≡ spec.counts_match fields.now statement.now }
{
    match statement {
        Stmt::Insert { columns, rows, .. } => { all_have(rows, named_count(fields, columns)) }
        _ => true,
    }
}

fn named_count(fields: &[Field], columns: &Option<Names>) -> usize
    ensures { result ≡ option_map_or length columns.now (length fields.now) }
{
    match columns {
        None => fields.len(),
        Some(names) => names.len(),
    }
}

fn all_have(rows: &ExprRows, count: usize) -> bool
    ensures { result ≡ list_all (λ r. length r == count) rows.now }
{
    rows.as_slice().iter().all(|row| row.len() == count)
}

fn all_tuples_fit(fields: &[Field], tuples: &ResolvedRows) -> bool
    ensures { result ≡ list_all (spec.fits_fields fields.now) tuples.now }
{
    tuples
        .as_slice()
        .iter()
        .all(|tuple| fits_fields(fields, tuple))
}

fn all_sets_right(fields: &[Field], key: usize, sets: &SetPlaces) -> bool
    ensures { result ≡ list_all (spec.sets_right fields.now key) sets.now }
{
    sets.as_slice()
        .iter()
        .all(|set| sets_right(fields, key, set))
}

#[tactic(auto, unfolding(crate::specs::Refusals::suits))]
fn suits_value(fields: &[Field], expr: &Resolved) -> bool
    ensures { result ≡ suits fields.now kinds.is_value expr.now }
{
    match kind_of(fields, expr) {
        Some(kind) => is_value(kind),
        None => false,
    }
}

#[tactic(auto, unfolding(crate::specs::Refusals::suits))]
fn suits_number(fields: &[Field], expr: &Resolved) -> bool
    ensures { result ≡ suits fields.now kinds.is_number expr.now }
{
    match kind_of(fields, expr) {
        Some(kind) => is_number(kind),
        None => false,
    }
}

#[tactic(auto, unfolding(crate::specs::Refusals::suits))]
fn suits_truth(fields: &[Field], expr: &Resolved) -> bool
    ensures { result ≡ suits fields.now kinds.is_truth expr.now }
{
    match kind_of(fields, expr) {
        Some(kind) => is_truth(kind),
        None => false,
    }
}

#[tactic(auto, unfolding(crate::specs::Refusals::suits))]
fn suits_sort(fields: &[Field], sort: Sort, expr: &Resolved) -> bool
    ensures { result ≡ suits fields.now (kinds.takes sort) expr.now }
{
    match kind_of(fields, expr) {
        Some(kind) => takes(sort, kind),
        None => false,
    }
}

fn is_condition(fields: &[Field], test: &Option<Resolved>) -> bool
    ensures { result ≡ spec.is_condition fields.now test.now }
{
    match test {
        None => true,
        Some(test) => suits_truth(fields, test),
    }
}

fn fits_fields(fields: &[Field], tuple: &ResolvedList) -> bool
    ensures { result ≡ spec.fits_fields fields.now tuple.now }
{
    fields.len() == tuple.len() && all_fit(fields, tuple.as_slice())
}

fn all_fit(fields: &[Field], tuple: &[Resolved]) -> bool
    ensures { result ≡ list_all (λ p. spec.fits_field p.0 p.1) (zip fields.now tuple.now) }
{
    fields
        .iter()
        .zip(tuple)
        .all(|(field, expr)| suits_sort(&[], field.sort, expr))
}

fn sets_right(fields: &[Field], key: usize, set: &SetPlace) -> bool
    ensures { result ≡ spec.sets_right fields.now key set.now }
{
    set.place != key && takes_value(fields, set)
}

fn takes_value(fields: &[Field], set: &SetPlace) -> bool
    ensures { result ≡ option_map_or (λ f. suits fields.now (kinds.takes f.sort) set.now.value) (slice_get fields.now set.now.place) false }
{
    match fields.get(set.place) {
        Some(field) => suits_sort(fields, field.sort, &set.value),
        None => false,
    }
}

fn totals_right(fields: &[Field], total: &Total) -> bool
    ensures { result ≡ spec.totals_right fields.now total.now }
{
    match total {
        Total::CountAll => true,
        Total::Count(arg) => suits_value(fields, arg),
        Total::Sum(arg) => suits_number(fields, arg),
        Total::Min(arg) => suits_value(fields, arg),
        Total::Max(arg) => suits_value(fields, arg),
    }
}

fn output_right(fields: &[Field], output: &Output) -> bool
    ensures { result ≡ spec.output_right fields.now output.now }
{
    match output {
        Output::Star => true,
        Output::Plain(exprs) => all_values(fields, exprs),
        Output::Totals(totals) => all_totals_right(fields, totals),
    }
}

fn all_values(fields: &[Field], exprs: &ResolvedList) -> bool
    ensures { result ≡ list_all (suits fields.now kinds.is_value) exprs.now }
{
    exprs
        .as_slice()
        .iter()
        .all(|expr| suits_value(fields, expr))
}

fn all_totals_right(fields: &[Field], totals: &Totals) -> bool
    ensures { result ≡ list_all (spec.totals_right fields.now) totals.now }
{
    totals
        .as_slice()
        .iter()
        .all(|total| totals_right(fields, total))
}
