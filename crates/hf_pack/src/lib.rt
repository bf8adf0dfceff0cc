//! The blocks of all records of a hash file moved to its front, in ascending place, and the links that name them renamed.
//!
//! It is one walk along the file that writes 64 KiB at a time, where that is another than what stands there. It takes memory for each block, and none for keys
//! and values. The layer above uses that the records are the same and that none of the blocks is free.
#![tactic(auto, using(tc_space::specs::Frames::keeps_refl, tc_space::specs::Frames::keeps_then, tc_space::specs::Frames::only_reads_refl, tc_space::specs::Frames::only_reads_then, tc_space::specs::Frames::others_refl, tc_space::specs::Frames::others_then))]

mod entries;
mod moving;
mod packing;
mod renaming;
mod stream;

pub use packing::pack_blocks;
