//! What requests make of a database, and how they are answered, over any engine.
#![tactic(auto, using(tc_space::specs::Frames::keeps_refl, tc_space::specs::Frames::keeps_then, tc_space::specs::Frames::reads_refl, tc_space::specs::Frames::reads_then, tc_space::specs::Frames::refuses_then))]

mod changes;
mod database;
mod failing;
mod listing;
mod misc;
mod numbers;
mod reads;
mod searching;
mod voice;
mod walks;

pub use database::Database;
