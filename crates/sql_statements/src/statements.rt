use crate::expressions::{Expr, ExprRows, Exprs};
use rm_base::{Items, Name, Names};
use sql_values::Schema;

/// A column of SET and its new value.
#[derive(Drop)]
pub struct SetItem {
    pub name: Name,
    pub value: Expr,
}

/// The changes of an UPDATE.
pub type Sets = Items<SetItem>;

/// One value over all rows.
#[derive(Drop)]
pub enum Agg {
    CountAll,
    Count(Expr),
    Sum(Expr),
    Min(Expr),
    Max(Expr),
}

/// The values of a select over all rows.
pub type Aggs = Items<Agg>;

/// What a select answers: all columns, values of each row, or values over all rows.
#[derive(Drop)]
pub enum Selected {
    Star,
    Plain(Exprs),
    Aggs(Aggs),
}

/// The second table and the condition on a pair of rows.
#[derive(Drop)]
pub struct Join {
    pub right: Name,
    pub on: Expr,
}

/// A column by which rows are ordered.
#[derive(Drop)]
pub struct OrderKey {
    pub table: Option<Name>,
    pub name: Name,
    pub desc: bool,
}

/// The keys of ORDER BY, the first one first.
pub type Orders = Items<OrderKey>;

#[derive(Drop)]
pub struct Select {
    pub items: Selected,
    pub left: Name,
    pub join: Option<Join>,
    pub test: Option<Expr>,
    pub order: Orders,
    pub limit: Option<i64>,
}

/// A statement of SQL.
#[derive(Drop)]
pub enum Stmt {
    Create {
        schema: Schema,
    },
    Insert {
        table: Name,
        columns: Option<Names>,
        rows: ExprRows,
    },
    Update {
        table: Name,
        sets: Sets,
        test: Option<Expr>,
    },
    Delete {
        table: Name,
        test: Option<Expr>,
    },
    Select(Select),
    Begin,
    Commit,
    Rollback,
}
