//! The engine of table databases in files: file 0 has the rows, and each index of a column has one of the files 3 to 18. What their bytes stand for, and the first rule that they break, is defined here.
#![tactic(auto, using(tc_space::specs::Frames::keeps_refl, tc_space::specs::Frames::keeps_then, tc_space::specs::Frames::reads_refl))]

mod changing;
mod engine;
mod holding;
mod indexing;
mod informing;
mod laws;
mod opening;
mod reading;
mod searching;
mod shape;
mod storing;

pub use holding::TableEngine;
pub use shape::TableShape;
