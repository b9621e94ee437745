//! Lists as text, with commas between their items.

ghost use Rattle.std.specs.Prelude.{◌≡◌, ◌∷◌, [], ◌++◌, IfOk};
ghost use Rattle.sql_words.specs.declared.signs.Sign.TheVariants as s;
ghost use Rattle.sql_front.specs.Printed as spec;
ghost use Rattle.sql_front.specs.Printed.{written};
ghost use Rattle.sql_front.specs.Symbols as symbol;

use crate::printing::{column, expr};
use crate::spelling::{name, sign, word};
use rm_base::{Name, Text, WantOfMemory};
use sql_statements::{Agg, Expr, Exprs, OrderKey, SetItem};
use sql_values::{Column, Sort};
use sql_words::{Sign, Word};
use std::alloc::Global;

/// What is printed in a list.
pub trait Shown {
    ghost use Rattle.std.specs.Prelude.{◌≡◌, IfOk};
    ghost use Rattle.sql_front.specs.Symbols.{Input};
    ghost use Rattle.sql_front.specs.Printed.{written};

    ghost symbols: { Self → Input };

    fn show(&self, alloc: Global, out: &mut Text) -> Result<(), WantOfMemory>
        ensures { IfOk result (λ _. out.new ≡ written out.old (symbols self.now)) };
}

/// A comma and an item.
#[tactic(auto, using(crate::proofs::Writing::written_append))]
fn other<T: Shown>(alloc: Global, out: &mut Text, item: &T) -> Result<(), WantOfMemory>
    ensures { IfOk result (λ _. out.new ≡ written out.old (symbol.sign s.Comma ∷ T.symbols item.now)) }
{
    sign(out, Sign::Comma)?;
    item.show(alloc, out)
}

#[tactic(auto, using(crate::proofs::Writing::written_append))]
pub fn list<T: Shown>(alloc: Global, out: &mut Text, items: &[T]) -> Result<(), WantOfMemory>
    ensures { IfOk result (λ _. out.new ≡ written out.old (spec.listed T.symbols items.now)) }
{
    match items {
        [] => Ok(()),
        [first, rest @ ..] => {
            first.show(alloc, out)?;
            others(alloc, out, rest)
        }
    }
}

#[tactic(auto, using(crate::proofs::Writing::written_append))]
fn others<T: Shown>(alloc: Global, out: &mut Text, items: &[T]) -> Result<(), WantOfMemory>
    ensures { IfOk result (λ _. out.new ≡ written out.old (spec.others T.symbols items.now)) }
{
    'items: for item in items {
        other(alloc, out, item)?;
    }
    Ok(())
}

impl Shown for Expr {
    ghost use Rattle.sql_front.specs.Printed.{expr_symbols};

    ghost symbols = { expr_symbols };

    fn show(&self, alloc: Global, out: &mut Text) -> Result<(), WantOfMemory> {
        expr(alloc, out, self)
    }
}

impl Shown for Name {
    ghost use Rattle.sql_front.specs.Printed.{name_symbols};

    ghost symbols = { name_symbols };

    fn show(&self, _alloc: Global, out: &mut Text) -> Result<(), WantOfMemory> {
        name(out, self)
    }
}

impl Shown for Exprs {
    ghost use Rattle.sql_front.specs.Printed.{tuple_symbols};

    ghost symbols = { tuple_symbols };

    #[tactic(auto, using(crate::proofs::Writing::written_append))]
    fn show(&self, alloc: Global, out: &mut Text) -> Result<(), WantOfMemory> {
        sign(out, Sign::Open)?;
        list::<Expr>(alloc, out, self.as_slice())?;
        sign(out, Sign::Close)
    }
}

impl Shown for SetItem {
    ghost use Rattle.sql_front.specs.Printed.{set_symbols};

    ghost symbols = { set_symbols };

    #[tactic(auto, using(crate::proofs::Writing::written_append))]
    fn show(&self, alloc: Global, out: &mut Text) -> Result<(), WantOfMemory> {
        name(out, &self.name)?;
        sign(out, Sign::Eq)?;
        expr(alloc, out, &self.value)
    }
}

#[tactic(auto, using(crate::proofs::Writing::written_append))]
fn bracketed(alloc: Global, out: &mut Text, arg: &Expr) -> Result<(), WantOfMemory>
    ensures { IfOk result (λ _. out.new ≡ written out.old (spec.bracketed arg.now)) }
{
    sign(out, Sign::Open)?;
    expr(alloc, out, arg)?;
    sign(out, Sign::Close)
}

/// COUNT ( * ).
fn all_rows(out: &mut Text) -> Result<(), WantOfMemory>
    ensures { IfOk result (λ _. out.new ≡ written out.old (spec.aggregate_symbols Agg.CountAll)) }
{
    word(out, Word::Count)?;
    sign(out, Sign::Open)?;
    sign(out, Sign::Star)?;
    sign(out, Sign::Close)
}

impl Shown for Agg {
    ghost use Rattle.sql_front.specs.Printed.{aggregate_symbols};

    ghost symbols = { aggregate_symbols };

    fn show(&self, alloc: Global, out: &mut Text) -> Result<(), WantOfMemory> {
        match self {
            Agg::CountAll => all_rows(out),
            Agg::Count(arg) => {
                word(out, Word::Count)?;
                bracketed(alloc, out, arg)
            }
            Agg::Sum(arg) => {
                word(out, Word::Sum)?;
                bracketed(alloc, out, arg)
            }
            Agg::Min(arg) => {
                word(out, Word::Min)?;
                bracketed(alloc, out, arg)
            }
            Agg::Max(arg) => {
                word(out, Word::Max)?;
                bracketed(alloc, out, arg)
            }
        }
    }
}

fn direction(out: &mut Text, desc: bool) -> Result<(), WantOfMemory>
    ensures { IfOk result (λ _. out.new ≡ written out.old (spec.direction_symbols desc)) }
{
    if desc { word(out, Word::Desc) } else { Ok(()) }
}

impl Shown for OrderKey {
    ghost use Rattle.sql_front.specs.Printed.{key_order_symbols};

    ghost symbols = { key_order_symbols };

    #[tactic(auto, using(crate::proofs::Writing::written_append))]
    fn show(&self, _alloc: Global, out: &mut Text) -> Result<(), WantOfMemory> {
        column(out, &self.table, &self.name)?;
        direction(out, self.desc)
    }
}

fn sort(out: &mut Text, sort: Sort) -> Result<(), WantOfMemory>
    ensures { IfOk result (λ _. out.new ≡ written out.old (spec.sort_word sort ∷ [])) }
{
    match sort {
        Sort::Int => word(out, Word::Int),
        Sort::Text => word(out, Word::Text),
    }
}

fn key_mark(out: &mut Text, is_key: bool) -> Result<(), WantOfMemory>
    ensures { IfOk result (λ _. out.new ≡ written out.old (spec.key_symbols is_key)) }
{
    if is_key {
        word(out, Word::Primary)?;
        return word(out, Word::Key);
    }
    Ok(())
}

fn definition(out: &mut Text, is_key: bool, column: &Column) -> Result<(), WantOfMemory>
    ensures { IfOk result (λ _. out.new ≡ written out.old (spec.definition_symbols is_key column.now)) }
{
    name(out, &column.name)?;
    sort(out, column.sort)?;
    key_mark(out, is_key)
}

#[tactic(auto, using(crate::proofs::Writing::written_append))]
fn other_definition(out: &mut Text, is_key: bool, column: &Column) -> Result<(), WantOfMemory>
    ensures { IfOk result (λ _. out.new ≡ written out.old (symbol.sign s.Comma ∷ spec.definition_symbols is_key column.now)) }
{
    sign(out, Sign::Comma)?;
    definition(out, is_key, column)
}

#[tactic(auto, using(crate::proofs::Writing::written_append))]
fn further_columns(out: &mut Text, key: usize, columns: &[Column]) -> Result<(), WantOfMemory>
    ensures { IfOk result (λ _. out.new ≡ written out.old (spec.further_columns key 1 columns.now)) }
{
    let mut at: usize = 1;
    'columns: for column in columns {
        other_definition(out, at == key, column)?;
        at = at.saturating_add(1);
    }
    Ok(())
}

/// The columns of a table, and which of them is the key.
#[tactic(auto, using(crate::proofs::Writing::written_append))]
pub fn columns(out: &mut Text, key: usize, columns: &[Column]) -> Result<(), WantOfMemory>
    ensures { IfOk result (λ _. out.new ≡ written out.old (spec.columns_symbols key columns.now)) }
{
    match columns {
        [] => Ok(()),
        [first, rest @ ..] => {
            definition(out, key == 0, first)?;
            further_columns(out, key, rest)
        }
    }
}
