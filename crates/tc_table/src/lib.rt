//! Tables: rows by primary key in one file, and indexes of their columns, each over a tree in a file of its own. After each call that leaves the space sound the indexes have their parts of the rows.
#![tactic(auto, using(tc_space::specs::Frames::keeps_refl, tc_space::specs::Frames::keeps_then))]

mod adding;
mod clearing;
mod column;
mod laws;
mod opening;
mod packing;
mod planning;
mod records;
mod searching;
mod settling;
mod side;
mod table;

pub use laws::{index_law, over_law};
pub use side::{Side, Sorted};
pub use table::Table;
