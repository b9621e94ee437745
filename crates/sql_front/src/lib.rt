//! Statements of SQL: their types, their parser and their printed form.
#![tactic(auto)]

mod changes;
mod commands;
mod definitions;
mod input;
mod laws;
mod levels;
mod lists;
mod parsing;
mod printing;
mod queries;
mod reading;
mod rendering;
mod showing;
mod spelling;
mod stopping;

pub use laws::{created_tables, one_meaning, reading_laws};
pub use parsing::{Syntax, parse};
pub use rendering::print;
pub use sql_statements::{
    Agg, Aggs, Expr, ExprRows, Exprs, Join, Op, OrderKey, Orders, Select, Selected, SetItem, Sets,
    Stmt,
};
