//! What a database does for requests: the trait of engines, the rows of a reply and the lines of an inspection.
#![tactic(auto)]

mod engine;
mod lines;
mod rows;

pub use engine::Engine;
pub use lines::add_line;
pub use rows::Rows;
