//! The engine of tree databases in files.
#![tactic(auto, using(tc_space::specs::Frames::keeps_refl))]

mod counting;
mod engine;
mod holding;
mod informing;
mod kept;
mod laws;
mod listing;
mod many;
mod opening;
mod ordered;
mod reading;
mod shape;
mod storing;
mod takers;

pub use holding::TreeEngine;
pub use kept::Kept;
pub use shape::TreeShape;
