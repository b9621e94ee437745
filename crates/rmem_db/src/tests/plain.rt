//! Tables as plain lists of rows, and what each statement over them is answered.
use std::alloc::{AllocError, Global};

/// A row: its key, and the number beside it. Each row has one text more, which is the same in all.
pub(super) type Pair = (i64, i64);

/// The text of each row, so long that a table does not stand in one leaf.
const FILLING: &str =
    "a text of one hundred letters or so; with it a leaf has some thirty rows, and a table several leaves";

/// Keys from `low` on and below `high`.
#[derive(Clone, Copy)]
pub(super) struct Keys {
    pub low: i64,
    pub high: i64,
}

impl Keys {
    fn has(&self, key: i64) -> bool {
        self.low <= key && key < self.high
    }
}

/// What is asked, a line each, and what is to be answered.
#[derive(Drop)]
pub(super) struct Texts {
    pub script: String,
    pub want: String,
}

/// A table: its name, and its rows by their keys.
#[derive(Drop)]
pub(super) struct Table {
    pub name: &'static str,
    pub rows: Vec<Pair>,
}

impl Table {
    pub fn copy(&self, alloc: Global) -> Result<Table, AllocError> {
        Ok(Table {
            name: self.name,
            rows: Vec::from_slice(alloc, self.rows.as_slice())?,
        })
    }

    /// The rows with those keys, in their order.
    fn rows_in(&self, alloc: Global, keys: Keys) -> Result<Vec<Pair>, AllocError> {
        let mut found = Vec::new(alloc);
        for row in &self.rows {
            if keys.has(row.0) {
                found.push(*row)?;
            }
        }
        Ok(found)
    }

    /// The number beside the key.
    fn number_at(&self, key: i64) -> Option<i64> {
        for row in &self.rows {
            if row.0 == key {
                return Some(row.1);
            }
        }
        None
    }

    /// The first key that would stand twice, with the rows.
    fn doubled(&self, rows: &[Pair]) -> Option<i64> {
        for (n, row) in rows.iter().enumerate() {
            if self.number_at(row.0).is_some() || rows[..n].iter().any(|before| before.0 == row.0) {
                return Some(row.0);
            }
        }
        None
    }
}

/// Rows as they are told.
fn tell(want: &mut String, rows: &[Pair]) -> Result<(), AllocError> {
    for (key, number) in rows {
        writeln!(want, "{key}, {number}")?;
    }
    let count = rows.len();
    writeln!(want, "rows {count}")
}

/// An INSERT of the rows.
fn ask_insert(script: &mut String, name: &str, rows: &[Pair]) -> Result<(), AllocError> {
    write!(script, "INSERT INTO {name} VALUES ")?;
    for (n, (key, number)) in rows.iter().enumerate() {
        let comma = if n == 0 { "" } else { ", " };
        write!(script, "{comma}({key}, {number}, '{FILLING}')")?;
    }
    script.push_str("\n")
}

/// INSERT. No row comes where a key would stand twice.
pub(super) fn insert(
    table: &mut Table,
    rows: &[Pair],
    texts: &mut Texts,
) -> Result<(), AllocError> {
    ask_insert(&mut texts.script, table.name, rows)?;
    if let Some(key) = table.doubled(rows) {
        return writeln!(texts.want, "error duplicate {key}");
    }
    table.rows.extend_from_slice(rows)?;
    table.rows.sort()?;
    let count = rows.len();
    writeln!(texts.want, "ok {count}")
}

/// UPDATE of the rows with those keys, whose numbers rise.
pub(super) fn raise(
    table: &mut Table,
    keys: Keys,
    by: i64,
    texts: &mut Texts,
) -> Result<(), AllocError> {
    let (name, low, high) = (table.name, keys.low, keys.high);
    writeln!(
        texts.script,
        "UPDATE {name} SET v = v + {by} WHERE k >= {low} AND k < {high}"
    )?;
    let mut count = 0u64;
    for row in table.rows.iter_mut() {
        if keys.has(row.0) {
            row.1 = row.1.wrapping_add(by);
            count = count.wrapping_add(1);
        }
    }
    writeln!(texts.want, "ok {count}")
}

/// UPDATE of all rows with numbers below a bound, whose signs turn.
pub(super) fn turn_signs(
    table: &mut Table,
    bound: i64,
    texts: &mut Texts,
) -> Result<(), AllocError> {
    let name = table.name;
    writeln!(texts.script, "UPDATE {name} SET v = -v WHERE v < {bound}")?;
    let mut count = 0u64;
    for row in table.rows.iter_mut() {
        if row.1 < bound {
            row.1 = row.1.wrapping_neg();
            count = count.wrapping_add(1);
        }
    }
    writeln!(texts.want, "ok {count}")
}

/// DELETE of the rows with those keys.
pub(super) fn delete(table: &mut Table, keys: Keys, texts: &mut Texts) -> Result<(), AllocError> {
    let (name, low, high) = (table.name, keys.low, keys.high);
    writeln!(
        texts.script,
        "DELETE FROM {name} WHERE k >= {low} AND k < {high}"
    )?;
    let count = table.rows.iter().filter(|row| keys.has(row.0)).count();
    table.rows.retain(|row| !keys.has(row.0));
    writeln!(texts.want, "ok {count}")
}

/// SELECT of the rows with those keys.
pub(super) fn select(
    alloc: Global,
    table: &Table,
    keys: Keys,
    texts: &mut Texts,
) -> Result<(), AllocError> {
    let (name, low, high) = (table.name, keys.low, keys.high);
    writeln!(
        texts.script,
        "SELECT k, v FROM {name} WHERE k >= {low} AND k < {high}"
    )?;
    let rows = table.rows_in(alloc, keys)?;
    tell(&mut texts.want, rows.as_slice())
}

/// SELECT of the rows with the greatest numbers.
pub(super) fn select_greatest(
    alloc: Global,
    table: &Table,
    limit: usize,
    texts: &mut Texts,
) -> Result<(), AllocError> {
    let name = table.name;
    writeln!(
        texts.script,
        "SELECT k, v FROM {name} ORDER BY v DESC, k LIMIT {limit}"
    )?;
    let mut order = Vec::new(alloc);
    for row in &table.rows {
        order.push((row.1.wrapping_neg(), row.0))?;
    }
    order.sort()?;
    order.truncate(limit);
    let mut rows = Vec::new(alloc);
    for (turned, key) in order.as_slice() {
        rows.push((*key, turned.wrapping_neg()))?;
    }
    tell(&mut texts.want, rows.as_slice())
}

/// The sum of the numbers; none over nothing.
fn sum_of(rows: &[Pair]) -> Option<i64> {
    let mut sum = None;
    for row in rows {
        sum = Some(row.1.wrapping_add(sum.unwrap_or(0)));
    }
    sum
}

/// A number as it is told.
fn told(alloc: Global, number: Option<i64>) -> Result<String, AllocError> {
    match number {
        Some(number) => format!(in alloc; "{number}"),
        None => String::from_str(alloc, "NULL"),
    }
}

/// The count, the sum and the ends of the numbers beside those keys.
pub(super) fn total(
    alloc: Global,
    table: &Table,
    keys: Keys,
    texts: &mut Texts,
) -> Result<(), AllocError> {
    let (name, low, high) = (table.name, keys.low, keys.high);
    writeln!(
        texts.script,
        "SELECT COUNT(*), SUM(v), MIN(v), MAX(v) FROM {name} WHERE k >= {low} AND k < {high}"
    )?;
    let rows = table.rows_in(alloc, keys)?;
    let count = rows.len();
    let sum = told(alloc, sum_of(rows.as_slice()))?;
    let least = told(alloc, rows.iter().map(|row| row.1).min())?;
    let greatest = told(alloc, rows.iter().map(|row| row.1).max())?;
    writeln!(texts.want, "{count}, {sum}, {least}, {greatest}\nrows 1")
}

/// SELECT over two tables, of the rows of the second whose keys are the numbers of the first.
pub(super) fn join(
    alloc: Global,
    left: &Table,
    right: &Table,
    keys: Keys,
    texts: &mut Texts,
) -> Result<(), AllocError> {
    let (l, r, low, high) = (left.name, right.name, keys.low, keys.high);
    writeln!(
        texts.script,
        "SELECT {l}.k, {r}.v FROM {l} JOIN {r} ON {r}.k = {l}.v WHERE {l}.k >= {low} AND {l}.k < {high}"
    )?;
    let mut rows = Vec::new(alloc);
    for row in left.rows_in(alloc, keys)?.as_slice() {
        if let Some(number) = right.number_at(row.1) {
            rows.push((row.0, number))?;
        }
    }
    tell(&mut texts.want, rows.as_slice())
}
