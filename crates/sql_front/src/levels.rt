/// The levels of operators with two sides that group to the left, from the loosest.
#[derive(Clone, Copy, Debug, PartialEq, Eq)]
pub enum Level {
    Or,
    And,
    Sum,
    Product,
}
