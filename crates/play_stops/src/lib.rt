//! Stops and faults of volumes in memory: a call that goes wrong, and what a stop leaves.
#![tactic(auto)]

mod left;
mod seen;
mod trouble;

pub use left::{WHOLE, choices};
pub use seen::{Seen, are_same};
pub use trouble::Trouble;
