//! Writes that are held in memory until a commit, so that many of them wait for the disk as one.
#![tactic(auto, using(tc_space::specs::Frames::keeps_then, tc_space::specs::Frames::keeps_refl, crate::proofs::Moments::keeps_stays, crate::proofs::Moments::keeps_follows, crate::proofs::Moments::follows_keeps))]

mod differing;
mod finding;
mod held;
mod held_space;
mod overlay;
mod stood;

pub use held::Held;
pub use held_space::HeldSpace;
