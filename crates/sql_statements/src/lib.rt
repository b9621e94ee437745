//! The statements of SQL as values: what the parser gives, and the planner and the evaluation take.
#![tactic(auto)]

mod expressions;
mod statements;

pub use expressions::{Expr, ExprRows, Exprs, Op};
pub use statements::{Agg, Aggs, Join, OrderKey, Orders, Select, Selected, SetItem, Sets, Stmt};
