use rm_base::{Items, Name};
use sql_values::Value;
use sqlite_items::Boxed;

/// An operator with two sides.
#[derive(Clone, Copy, Debug, PartialEq, Eq)]
pub enum Op {
    Or,
    And,
    Eq,
    Ne,
    Lt,
    Le,
    Gt,
    Ge,
    Add,
    Sub,
    Mul,
}

/// An expression. Brackets leave no trace in it.
#[derive(Drop)]
pub enum Expr {
    Lit(Value),
    Col {
        table: Option<Name>,
        name: Name,
    },
    Neg(Boxed<Expr>),
    Not(Boxed<Expr>),
    IsNull {
        arg: Boxed<Expr>,
        not: bool,
    },
    Two {
        op: Op,
        left: Boxed<Expr>,
        right: Boxed<Expr>,
    },
}

/// Expressions in the order of the text.
pub type Exprs = Items<Expr>;

/// The tuples of an INSERT.
pub type ExprRows = Items<Exprs>;
