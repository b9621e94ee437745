//! The types that tell of a cluster: its shape, the scripts that drive it, and the trace of what it read.
#![tactic(auto)]

mod events;
mod scripts;
mod shape;
mod traces;

pub use events::{ActKind, Event};
pub use scripts::{Line, Order, Orders, Script};
pub use shape::Shape;
pub use traces::{Answered, AnsweredList, Origin, Trace, Use, Uses};
