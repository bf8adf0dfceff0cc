//! States of an undo log between calls of a volume, and what a stop at any moment leaves of them.
//!
//! The definitions stand in specs/, and the lemmas on each kind of call in proofs/.
#![tactic(auto)]

mod laws;

pub use laws::may_run_again;
