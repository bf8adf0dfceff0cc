//! The databases in memory, as engines.
#![tactic(auto, using(tc_space::specs::Frames::keeps_refl))]

mod data;
mod engine;
mod many;
mod reading;

pub use engine::MemEngine;
