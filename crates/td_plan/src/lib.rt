//! Which condition of a query an index serves, and the stretch of the index in which the rows that meet it stand.
#![tactic(auto)]

mod choice;
mod plan;
mod span;

pub use choice::{Choice, Indexed, Names, choose};
pub use plan::{Plan, make_plan};
pub use span::{Span, span_of};
