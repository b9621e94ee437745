use thiserror::Error;

/// What is wrong with a line of a script. Where more than one thing is, the first of these counts.
#[derive(Clone, Copy, Debug, PartialEq, Eq)]
pub enum Why {
    /// No first line says the cluster's shape, within its limits.
    Shape,
    /// The line is not UTF-8, or has none of the forms.
    Form,
    /// A number is outside its range.
    Number,
    /// The cluster has no such node.
    Node,
    /// The cluster has no such slab.
    Slab,
    /// No such session was declared before.
    Session,
    /// The session was declared before, or there are 64.
    Twice,
    /// Nothing is wrong, but the cluster cannot do it yet.
    Later,
}

/// The first line of a script that is bad, from 1, and what is wrong with it.
#[derive(Clone, Copy, Debug, PartialEq, Eq, Error)]
#[error("bad script line {line}")]
pub struct BadScript {
    pub line: u32,
    pub why: Why,
}
