//! Statements as text.

ghost use Rattle.std.specs.Prelude.{◌≡◌, ◌∷◌, [], IfOk, ℕ, List};
ghost use Rattle.sql_front.specs.Printed as spec;
ghost use Rattle.sql_front.specs.Printed.{written};
ghost use Rattle.sql_front.specs.Sentences.{IsSql};
ghost use Rattle.sql_front.specs.Short.{KeepsLimits};
ghost use Rattle.sql_front.specs.Symbols as symbol;

use crate::printing::expr;
use crate::showing::{columns, list};
use crate::spelling::{integer, name, sign, word};
use rm_base::{Name, Names, Text, WantOfMemory};
use sql_statements::{
    Agg, Expr, ExprRows, Exprs, Join, OrderKey, Select, Selected, SetItem, Sets, Stmt,
};
use sql_values::Schema;
use sql_words::{Sign, Word};
use std::alloc::Global;

fn two_words(out: &mut Text, first: Word, second: Word) -> Result<(), WantOfMemory>
    ensures { IfOk result (λ _. out.new ≡ written out.old (symbol.word first ∷ symbol.word second ∷ [])) }
{
    word(out, first)?;
    word(out, second)
}

#[tactic(auto, using(crate::proofs::Writing::written_append))]
fn create(out: &mut Text, schema: &Schema) -> Result<(), WantOfMemory>
    ensures { IfOk result (λ _. out.new ≡ written out.old (spec.create_symbols schema.now)) }
{
    two_words(out, Word::Create, Word::Table)?;
    name(out, &schema.table)?;
    sign(out, Sign::Open)?;
    columns(out, usize::from(schema.key), schema.columns.as_slice())?;
    sign(out, Sign::Close)
}

#[tactic(auto, using(crate::proofs::Writing::written_append))]
fn named_columns(alloc: Global, out: &mut Text, columns: &Option<Names>) -> Result<(), WantOfMemory>
    ensures { IfOk result (λ _. out.new ≡ written out.old (spec.named_columns columns.now)) }
{
    match columns {
        None => Ok(()),
        Some(names) => {
            sign(out, Sign::Open)?;
            list::<Name>(alloc, out, names.as_slice())?;
            sign(out, Sign::Close)
        }
    }
}

#[tactic(auto, using(crate::proofs::Writing::written_append))]
fn insert(
    alloc: Global,
    out: &mut Text,
    table: &Name,
    columns: &Option<Names>,
    rows: &ExprRows,
) -> Result<(), WantOfMemory>
    ensures { IfOk result (λ _. out.new ≡ written out.old (spec.insert_symbols table.now columns.now rows.now)) }
{
    two_words(out, Word::Insert, Word::Into)?;
    name(out, table)?;
    named_columns(alloc, out, columns)?;
    word(out, Word::Values)?;
    list::<Exprs>(alloc, out, rows.as_slice())
}

#[tactic(auto, using(crate::proofs::Writing::written_append))]
fn condition(alloc: Global, out: &mut Text, test: &Option<Expr>) -> Result<(), WantOfMemory>
    ensures { IfOk result (λ _. out.new ≡ written out.old (spec.condition_symbols test.now)) }
{
    match test {
        None => Ok(()),
        Some(test) => {
            word(out, Word::Where)?;
            expr(alloc, out, test)
        }
    }
}

#[tactic(auto, using(crate::proofs::Writing::written_append))]
fn update(
    alloc: Global,
    out: &mut Text,
    table: &Name,
    sets: &Sets,
    test: &Option<Expr>,
) -> Result<(), WantOfMemory>
    ensures { IfOk result (λ _. out.new ≡ written out.old (spec.update_symbols table.now sets.now test.now)) }
{
    word(out, Word::Update)?;
    name(out, table)?;
    word(out, Word::Set)?;
    list::<SetItem>(alloc, out, sets.as_slice())?;
    condition(alloc, out, test)
}

#[tactic(auto, using(crate::proofs::Writing::written_append))]
fn delete(
    alloc: Global,
    out: &mut Text,
    table: &Name,
    test: &Option<Expr>,
) -> Result<(), WantOfMemory>
    ensures { IfOk result (λ _. out.new ≡ written out.old (spec.delete_symbols table.now test.now)) }
{
    two_words(out, Word::Delete, Word::From)?;
    name(out, table)?;
    condition(alloc, out, test)
}

fn selected(alloc: Global, out: &mut Text, items: &Selected) -> Result<(), WantOfMemory>
    ensures { IfOk result (λ _. out.new ≡ written out.old (spec.selected_symbols items.now)) }
{
    match items {
        Selected::Star => sign(out, Sign::Star),
        Selected::Plain(items) => list::<Expr>(alloc, out, items.as_slice()),
        Selected::Aggs(items) => list::<Agg>(alloc, out, items.as_slice()),
    }
}

#[tactic(auto, using(crate::proofs::Writing::written_append))]
fn join(alloc: Global, out: &mut Text, join: &Option<Join>) -> Result<(), WantOfMemory>
    ensures { IfOk result (λ _. out.new ≡ written out.old (spec.join_symbols join.now)) }
{
    match join {
        None => Ok(()),
        Some(join) => {
            word(out, Word::Join)?;
            name(out, &join.right)?;
            word(out, Word::On)?;
            expr(alloc, out, &join.on)
        }
    }
}

#[tactic(auto, using(crate::proofs::Writing::written_append))]
fn orders(alloc: Global, out: &mut Text, keys: &[OrderKey]) -> Result<(), WantOfMemory>
    ensures { IfOk result (λ _. out.new ≡ written out.old (spec.order_symbols keys.now)) }
{
    if keys.is_empty() {
        return Ok(());
    }
    two_words(out, Word::Order, Word::By)?;
    list::<OrderKey>(alloc, out, keys)
}

fn limit(alloc: Global, out: &mut Text, most: &Option<i64>) -> Result<(), WantOfMemory>
    ensures { IfOk result (λ _. out.new ≡ written out.old (spec.limit_symbols most.now)) }
{
    match most {
        None => Ok(()),
        Some(most) => {
            word(out, Word::Limit)?;
            integer(alloc, out, *most)
        }
    }
}

/// WHERE, ORDER BY and LIMIT.
#[tactic(auto, using(crate::proofs::Writing::written_append))]
fn endings(alloc: Global, out: &mut Text, query: &Select) -> Result<(), WantOfMemory>
    ensures { IfOk result (λ _. out.new ≡ written out.old (spec.ending_symbols query.now)) }
{
    condition(alloc, out, &query.test)?;
    orders(alloc, out, query.order.as_slice())?;
    limit(alloc, out, &query.limit)
}

#[tactic(auto, using(crate::proofs::Writing::written_append))]
fn select(alloc: Global, out: &mut Text, query: &Select) -> Result<(), WantOfMemory>
    ensures { IfOk result (λ _. out.new ≡ written out.old (spec.select_symbols query.now)) }
{
    word(out, Word::Select)?;
    selected(alloc, out, &query.items)?;
    word(out, Word::From)?;
    name(out, &query.left)?;
    join(alloc, out, &query.join)?;
    endings(alloc, out, query)
}

fn statement(alloc: Global, out: &mut Text, printed: &Stmt) -> Result<(), WantOfMemory>
    ensures { IfOk result (λ _. out.new ≡ written out.old (spec.symbols printed.now)) }
{
    match printed {
        Stmt::Create { schema } => create(out, schema),
        Stmt::Insert {
            table,
            columns,
            rows,
        } => insert(alloc, out, table, columns, rows),
        Stmt::Update { table, sets, test } => update(alloc, out, table, sets, test),
        Stmt::Delete { table, test } => delete(alloc, out, table, test),
        Stmt::Select(query) => select(alloc, out, query),
        Stmt::Begin => word(out, Word::Begin),
        Stmt::Commit => word(out, Word::Commit),
        Stmt::Rollback => word(out, Word::Rollback),
    }
}

/// The text of a statement: words in upper case, one space between tokens, brackets round each operand
/// that is no literal and no column, and round a literal behind a minus. Where a text says the statement,
/// the printed one says it too, if it keeps the limits of a text and of its expressions.
#[tactic(auto, using(crate::proofs::PrintedAgain::printed_so))]
pub fn print(alloc: Global, printed: &Stmt) -> Result<Text, WantOfMemory>
    ensures text { IfOk result (λ text. text ≡ spec.printed printed.now) }
    ensures again { (sql : List ℕ) → IsSql sql printed.now → KeepsLimits printed.now → IfOk result (λ text. IsSql text printed.now) }
{
    let mut out = Text::new(alloc);
    statement(alloc, &mut out, printed)?;
    Ok(out)
}
