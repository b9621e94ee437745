use rm_base::Items;
use sql_statements::Op;
use sql_values::Value;
use sqlite_items::Boxed;

/// An expression that names each column by its place in a row, from 0.
#[derive(Drop)]
pub enum Resolved {
    Lit(Value),
    Cell(usize),
    Neg(Boxed<Resolved>),
    Not(Boxed<Resolved>),
    IsNull {
        arg: Boxed<Resolved>,
        not: bool,
    },
    Two {
        op: Op,
        left: Boxed<Resolved>,
        right: Boxed<Resolved>,
    },
}

/// The items of a select, or the values of a row.
pub type ResolvedList = Items<Resolved>;

/// The tuples of an INSERT.
pub type ResolvedRows = Items<ResolvedList>;
