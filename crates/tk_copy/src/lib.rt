//! The kept files of a database are copied under a label, so that a stop at any moment leaves the copy that was there, one that can't be opened, or the new one.
//!
//! The undo log of the copy is made one that breaks the first rule, before any of its files changes, and is cut to nothing once all of them are on the disk.
#![tactic(auto, using(crate::proofs::Steps::changes_then))]

mod copying;
mod laws;
mod spoiling;

pub use copying::copy_files;
pub use laws::unusable_breaks;
