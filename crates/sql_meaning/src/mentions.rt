ghost use Rattle.std.specs.Prelude.{◌≡◌, ◌++◌, ◌∷◌, [], IfOk, OnOk, option_map, find, is_none, flat_map, map, Some, None};
ghost use Rattle.std.specs.Option.{option_copied};
ghost use Rattle.sql_meaning.specs.Names.{first_unknown, text_of, all_mentions, agg_mentions, selected_mentions, order_mention, set_mentions, table_mentions, test_mentions, join_mentions, tuple_mentions, mention};
ghost use Rattle.sql_meaning.specs.Names as spec;

use crate::fields::{Field, place_of};
use rm_base::{Duplicate, Items, Name, Names, Text, WantOfMemory};
use sql_statements::{
    Agg, Aggs, Expr, ExprRows, Exprs, Join, Orders, Select, Selected, Sets, Stmt,
};
use std::alloc::Global;

/// A column as a statement names it.
#[derive(Debug, Drop)]
pub struct Mention {
    pub table: Option<Name>,
    pub name: Name,
}

pub type Mentions = Items<Mention>;

/// The first of the columns that the fields have not, or have more than once, as the text has it.
pub fn unknown_among(
    alloc: Global,
    fields: &[Field],
    mentions: &Mentions,
) -> Result<Option<Text>, WantOfMemory>
    ensures { IfOk result (λ r. r ≡ first_unknown fields.now mentions.now) }
{
    match first_unknown_mention(fields, mentions.as_slice()) {
        None => Ok(None),
        Some(mention) => Ok(Some(text(alloc, mention)?)),
    }
}

fn first_unknown_mention<'a>(fields: &[Field], mentions: &'a [Mention]) -> Option<&'a Mention>
    ensures { option_copied result ≡ find (spec.is_unknown fields.now) mentions.now }
{
    mentions.iter().find(|mention| is_unknown(fields, mention))
}

fn is_unknown(fields: &[Field], mention: &Mention) -> bool
    ensures { result ≡ spec.is_unknown fields.now mention.now }
{
    place_of(fields, &mention.table, &mention.name).is_none()
}

fn text(alloc: Global, mention: &Mention) -> Result<Text, WantOfMemory>
    ensures { IfOk result (λ t. t ≡ text_of mention.now) }
{
    match &mention.table {
        None => copied(alloc, &mention.name),
        Some(table) => {
            let mut text = copied(alloc, table)?;
            text.push(b'.')?;
            text.append(mention.name.as_slice())?;
            Ok(text)
        }
    }
}

fn copied(alloc: Global, name: &Name) -> Result<Text, WantOfMemory>
    ensures { IfOk result (λ t. t ≡ name.now) }
{
    let mut text = Text::new(alloc);
    text.append(name.as_slice())?;
    Ok(text)
}

fn push_mention(
    alloc: Global,
    mentions: &mut Mentions,
    table: &Option<Name>,
    name: &Name,
) -> Result<(), WantOfMemory>
    ensures { OnOk result (mentions.new ≡ mentions.old ++ mention table.now name.now ∷ []) }
{
    let table = copied_name(alloc, table)?;
    mentions.push(Mention {
        table,
        name: name.copy(alloc)?,
    })
}

fn copied_name(alloc: Global, name: &Option<Name>) -> Result<Option<Name>, WantOfMemory>
    ensures { IfOk result (λ n. n ≡ name.now) }
{
    match name {
        None => Ok(None),
        Some(name) => Ok(Some(name.copy(alloc)?)),
    }
}

/// Adds the columns that the expression names, in the order of the text.
fn push_mentions(alloc: Global, mentions: &mut Mentions, expr: &Expr) -> Result<(), WantOfMemory>
    ensures { OnOk result (mentions.new ≡ mentions.old ++ spec.mentions expr.now) }
{
    match expr {
        Expr::Lit(_) => Ok(()),
        Expr::Col { table, name } => push_mention(alloc, mentions, table, name),
        Expr::Neg(arg) => push_mentions(alloc, mentions, arg.get()),
        Expr::Not(arg) => push_mentions(alloc, mentions, arg.get()),
        Expr::IsNull { arg, .. } => push_mentions(alloc, mentions, arg.get()),
        Expr::Two { left, right, .. } => {
            push_mentions(alloc, mentions, left.get())?;
            push_mentions(alloc, mentions, right.get())
        }
    }
}

fn push_all(alloc: Global, mentions: &mut Mentions, exprs: &Exprs) -> Result<(), WantOfMemory>
    ensures { OnOk result (mentions.new ≡ mentions.old ++ all_mentions exprs.now) }
{
    for expr in exprs.as_slice() {
        push_mentions(alloc, mentions, expr)?;
    }
    Ok(())
}

fn push_rows(alloc: Global, mentions: &mut Mentions, rows: &ExprRows) -> Result<(), WantOfMemory>
    ensures { OnOk result (mentions.new ≡ mentions.old ++ flat_map all_mentions rows.now) }
{
    for row in rows.as_slice() {
        push_all(alloc, mentions, row)?;
    }
    Ok(())
}

fn push_test(
    alloc: Global,
    mentions: &mut Mentions,
    test: &Option<Expr>,
) -> Result<(), WantOfMemory>
    ensures { OnOk result (mentions.new ≡ mentions.old ++ test_mentions test.now) }
{
    match test {
        None => Ok(()),
        Some(test) => push_mentions(alloc, mentions, test),
    }
}

fn push_join(
    alloc: Global,
    mentions: &mut Mentions,
    join: &Option<Join>,
) -> Result<(), WantOfMemory>
    ensures { OnOk result (mentions.new ≡ mentions.old ++ join_mentions join.now) }
{
    match join {
        None => Ok(()),
        Some(join) => push_mentions(alloc, mentions, &join.on),
    }
}

fn push_names(alloc: Global, mentions: &mut Mentions, names: &Names) -> Result<(), WantOfMemory>
    ensures { OnOk result (mentions.new ≡ mentions.old ++ map (mention None) names.now) }
{
    for name in names.as_slice() {
        push_mention(alloc, mentions, &None, name)?;
    }
    Ok(())
}

fn push_sets(alloc: Global, mentions: &mut Mentions, sets: &Sets) -> Result<(), WantOfMemory>
    ensures { OnOk result (mentions.new ≡ mentions.old ++ flat_map set_mentions sets.now) }
{
    for set in sets.as_slice() {
        push_mention(alloc, mentions, &None, &set.name)?;
        push_mentions(alloc, mentions, &set.value)?;
    }
    Ok(())
}

fn push_agg(alloc: Global, mentions: &mut Mentions, agg: &Agg) -> Result<(), WantOfMemory>
    ensures { OnOk result (mentions.new ≡ mentions.old ++ agg_mentions agg.now) }
{
    match agg {
        Agg::CountAll => Ok(()),
        Agg::Count(arg) => push_mentions(alloc, mentions, arg),
        Agg::Sum(arg) => push_mentions(alloc, mentions, arg),
        Agg::Min(arg) => push_mentions(alloc, mentions, arg),
        Agg::Max(arg) => push_mentions(alloc, mentions, arg),
    }
}

fn push_aggs(alloc: Global, mentions: &mut Mentions, aggs: &Aggs) -> Result<(), WantOfMemory>
    ensures { OnOk result (mentions.new ≡ mentions.old ++ flat_map agg_mentions aggs.now) }
{
    for agg in aggs.as_slice() {
        push_agg(alloc, mentions, agg)?;
    }
    Ok(())
}

fn push_selected(
    alloc: Global,
    mentions: &mut Mentions,
    selected: &Selected,
) -> Result<(), WantOfMemory>
    ensures { OnOk result (mentions.new ≡ mentions.old ++ selected_mentions selected.now) }
{
    match selected {
        Selected::Star => Ok(()),
        Selected::Plain(exprs) => push_all(alloc, mentions, exprs),
        Selected::Aggs(aggs) => push_aggs(alloc, mentions, aggs),
    }
}

fn push_orders(alloc: Global, mentions: &mut Mentions, orders: &Orders) -> Result<(), WantOfMemory>
    ensures { OnOk result (mentions.new ≡ mentions.old ++ map order_mention orders.now) }
{
    for order in orders.as_slice() {
        push_mention(alloc, mentions, &order.table, &order.name)?;
    }
    Ok(())
}

fn push_select(alloc: Global, mentions: &mut Mentions, select: &Select) -> Result<(), WantOfMemory>
    ensures { OnOk result (mentions.new ≡ mentions.old ++ (selected_mentions select.now.items ++ (join_mentions select.now.join ++ (test_mentions select.now.test ++ map order_mention select.now.order)))) }
{
    push_selected(alloc, mentions, &select.items)?;
    push_join(alloc, mentions, &select.join)?;
    push_test(alloc, mentions, &select.test)?;
    push_orders(alloc, mentions, &select.order)
}

/// The columns of its tables that the statement names.
pub fn of_tables(alloc: Global, statement: &Stmt) -> Result<Mentions, WantOfMemory>
    ensures { IfOk result (λ m. m ≡ table_mentions statement.now) }
{
    let mut mentions = Mentions::new(alloc);
    match statement {
        Stmt::Insert {
            columns: Some(names),
            ..
        } => push_names(alloc, &mut mentions, names)?,
        Stmt::Update { sets, test, .. } => {
            push_sets(alloc, &mut mentions, sets)?;
            push_test(alloc, &mut mentions, test)?;
        }
        Stmt::Delete { test, .. } => push_test(alloc, &mut mentions, test)?,
        Stmt::Select(select) => push_select(alloc, &mut mentions, select)?,
        Stmt::Create { .. }
        | Stmt::Insert { columns: None, .. }
        | Stmt::Begin
        | Stmt::Commit
        | Stmt::Rollback => {}
    }
    Ok(mentions)
}

/// The columns that stand in the tuples of an INSERT.
pub fn of_tuples(alloc: Global, statement: &Stmt) -> Result<Mentions, WantOfMemory>
    ensures { IfOk result (λ m. m ≡ tuple_mentions statement.now) }
{
    let mut mentions = Mentions::new(alloc);
    if let Stmt::Insert { rows, .. } = statement {
        push_rows(alloc, &mut mentions, rows)?;
    }
    Ok(mentions)
}
