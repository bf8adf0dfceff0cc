//! All blocks of a hash file passed over once, and the rules of links and records checked.
//!
//! The pass reads 64 KiB at a time, decodes each block's head once, and finds the free blocks and what the rules ask of each record (`Fact`), in place order;
//! no list of all blocks is made. For the check all rules but the order of keys of more than 16 bytes that are alike in hash, length and first 16 bytes are
//! looked at in memory. The trees of 256 buckets are followed, and what they reach is judged, before those of the next.
//!
//! The record that a place names is guessed by a table, of at most as many stretches of the file as there are records, that has the first record of each,
//! for many links side by side. Where none of that record and the two behind it stands there, it is searched for. A pass over all names is made only where a
//! link names no record or a record twice, to tell which rule is broken.
//!
//! The layer above uses the facts of all records, the free blocks, and the first rule that is broken.
#![tactic(auto, using(tc_space::specs::Frames::only_reads_refl, tc_space::specs::Frames::only_reads_then, tc_space::specs::Frames::keeps_then))]

mod checking;
mod facts;
mod guessing;
mod hashing;
mod judging;
mod naming;
mod reaching;
mod surveying;

pub use checking::check;
pub use facts::{Fact, Facts};
pub use surveying::{Survey, survey_blocks};
