//! The pages of a tree by their ids, over any map of records: those used last are held in memory.
#![tactic(auto, using(tc_space::specs::Frames::keeps_refl))]

mod cache;
mod marking;
mod reading;
mod shared;
mod writing;

pub use cache::Cache;
pub use shared::{HeldLeaf, SharedPage};
