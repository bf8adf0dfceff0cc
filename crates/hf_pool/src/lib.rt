//! The free blocks of a hash file.
#![tactic(auto, using(tc_space::specs::Frames::keeps_refl, tc_space::specs::Frames::keeps_then))]

mod index;
mod marks;
mod pool;

pub use pool::Pool;
