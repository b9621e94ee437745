ghost use Rattle.std.specs.Prelude.{◌≡◌, IfOk};
ghost use Rattle.sql_exec.specs.Order.{IsOrdered, place_cmp, row_cmp, limited};
ghost use Rattle.sql_exec.specs.Order as spec;
ghost use Rattle.sql_meaning.specs.Evaluation.{cell_of};
ghost use Rattle.sql_values.specs.Order.{value_cmp};

use rm_base::WantOfMemory;
use sql_meaning::{OrderPlace, OrderPlaces};
use sql_values::{Row, Rows, Value, order};
use std::cmp::Ordering;

/// The rows in the order of these places. Rows that tie stand as they stood.
pub fn ordered(places: &OrderPlaces, rows: Rows) -> Result<Rows, WantOfMemory>
    ensures { IfOk result (λ r. IsOrdered places.now rows r) }
{
    let mut rows = rows.into_vec();
    rows.sort_by(|a, b| compare_rows(places, a, b))?;
    Ok(Rows::from_vec(rows))
}

fn compare_rows(places: &OrderPlaces, a: &Row, b: &Row) -> Ordering
    ensures { result ≡ row_cmp places.now a.now b.now }
{
    for place in places.as_slice() {
        let ordering = compare_at(*place, a.as_slice(), b.as_slice());
        if ordering.is_ne() {
            return ordering;
        }
    }
    Ordering::Equal
}

fn compare_at(place: OrderPlace, a: &[Value], b: &[Value]) -> Ordering
    ensures { result ≡ place_cmp place a.now b.now }
{
    if place.desc {
        compare_cells(b, a, place.place)
    } else {
        compare_cells(a, b, place.place)
    }
}

fn compare_cells(a: &[Value], b: &[Value], place: usize) -> Ordering
    ensures { result ≡ value_cmp (cell_of a.now place) (cell_of b.now place) }
{
    let null = Value::Null;
    match (a.get(place), b.get(place)) {
        (Some(a), Some(b)) => order(a, b),
        (Some(a), None) => order(a, &null),
        (None, Some(b)) => order(&null, b),
        (None, None) => order(&null, &null),
    }
}

/// The first rows, as LIMIT says.
pub fn cut(rows: Rows, limit: Option<i64>) -> Rows
    ensures { result ≡ limited limit rows }
{
    match limit {
        None => rows,
        Some(limit) => {
            let mut rows = rows.into_vec();
            rows.truncate(count_of(limit));
            Rows::from_vec(rows)
        }
    }
}

fn count_of(limit: i64) -> usize
    ensures { result ≡ spec.count_of limit }
{
    usize::try_from(limit).unwrap_or(0)
}
