use crate::resolved::{Resolved, ResolvedList, ResolvedRows};
use rm_base::Items;

/// One value over all rows.
#[derive(Drop)]
pub enum Total {
    CountAll,
    Count(Resolved),
    Sum(Resolved),
    Min(Resolved),
    Max(Resolved),
}

pub type Totals = Items<Total>;

/// What a select answers: all columns, values of each row, or values over all rows.
#[derive(Drop)]
pub enum Output {
    Star,
    Plain(ResolvedList),
    Totals(Totals),
}

/// A column by which rows are ordered.
#[derive(Clone, Copy, Debug, PartialEq, Eq)]
pub struct OrderPlace {
    pub place: usize,
    pub desc: bool,
}

/// The keys of ORDER BY, the first one first.
pub type OrderPlaces = Items<OrderPlace>;

/// A column of SET and its new value.
#[derive(Drop)]
pub struct SetPlace {
    pub place: usize,
    pub value: Resolved,
}

pub type SetPlaces = Items<SetPlace>;

/// What a statement does. Its expressions name columns by their places in the rows of its tables: the
/// columns of the one table, or the left table's and then the right table's. The test of a join is ON and
/// WHERE. A tuple has a value for each column of the table.
#[derive(Drop)]
pub enum Action {
    Create,
    Insert {
        tuples: ResolvedRows,
    },
    Update {
        sets: SetPlaces,
        test: Option<Resolved>,
    },
    Delete {
        test: Option<Resolved>,
    },
    Select {
        output: Output,
        test: Option<Resolved>,
        order: OrderPlaces,
        limit: Option<i64>,
    },
    /// BEGIN, COMMIT and ROLLBACK.
    Control,
}
