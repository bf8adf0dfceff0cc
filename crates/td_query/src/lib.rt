//! Queries on the rows of a table: what the arguments of a search ask for, which rows meet it, and in what order they come. What they mean stands in docs/PROTOCOL.md.
#![tactic(auto)]

mod conditions;
mod fronts;
mod operators;
mod ordering;
mod reading;
mod tokens;

pub use conditions::holds;
pub use fronts::{arrange_back, cut};
pub use ordering::{FoundRow, FoundRows, arrange};
pub use reading::read_query;
pub use tokens::{has_token, token_of};
