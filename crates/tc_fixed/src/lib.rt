//! The array in one file: a map from ids to values of at most a width, each in a cell of its own.
#![tactic(auto, using(tc_space::specs::Frames::keeps_refl, tc_space::specs::Frames::keeps_then, tc_space::specs::Frames::only_reads_refl, tc_space::specs::Frames::only_reads_then, tc_space::specs::Frames::only_writes_refl, tc_space::specs::Frames::only_writes_then))]

mod cells;
mod create;
mod fixed;
mod listing;
mod looking;
mod open;
mod putting;
mod reading;
mod scanning;
mod settle;
mod taking;
mod tally;

pub use fixed::Fixed;
