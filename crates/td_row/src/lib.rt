//! Rows of a table: columns in order, whose names are distinct; their bytes in a file, and their text on the wire. The format is in docs/FORMATS.md.
#![tactic(auto)]

mod bytes;
mod merging;
mod row;
mod text;

pub use row::{Row, RowErr};
pub use text::part_of;
