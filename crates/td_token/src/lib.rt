//! What an index has of a column's value: the value itself, or its tokens, each once.
#![tactic(auto)]

mod parts;
mod seen;
mod sets;
mod splitting;

pub use parts::firsts;
pub use sets::{common, distinct};
pub use splitting::tokens;
