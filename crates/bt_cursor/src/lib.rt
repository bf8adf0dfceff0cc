//! A place in the list of pairs of a tree, which moves from pair to pair.
#![tactic(auto, using(tc_space::specs::Frames::keeps_refl, tc_space::specs::Frames::reads_refl))]

mod changing;
mod cursor;
mod looking;
mod takers;

pub use cursor::{Cursor, Place};
