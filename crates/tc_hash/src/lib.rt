//! A hash file held open: a finite map over one file of a space (`Hash`, which is `Records`).
//!
//! The head, the free blocks, the number of records and the owner's region are in memory, the map in the file alone. It opens a file by all rules of its
//! layout, one after the other; makes an empty file a hash file; finds, puts and takes out records by key and lists all keys; takes all out at once, counts
//! the bytes of keys and values, and packs the file, in its form or anew in the large one (`pack`). `settle` brings what is held in memory to the file, of
//! head and pool section only the bytes that differ from those that it read or wrote last.
//!
//! The layer above uses that a file which opens stands for a map, that what is open holds this map (`HoldsFile`), what each call makes of it, and that a
//! settled file stands for what is held. A put and an out search once, a put again where its record moves to a larger block, and are then steps on the record (`hf_record`).
#![tactic(auto, using(tc_space::specs::Frames::keeps_refl, tc_space::specs::Frames::keeps_then, tc_space::specs::Frames::only_reads_refl, tc_space::specs::Frames::only_reads_then, tc_space::specs::Frames::only_writes_refl, tc_space::specs::Frames::only_writes_then))]

mod clearing;
mod create;
mod enlarging;
mod front;
mod getting;
mod hash;
mod laws;
mod mapping;
mod open;
mod out;
mod packing;
mod put;
mod section;
mod settle;
mod sorting;
mod totals;
mod walking;

pub use hash::Hash;
pub use laws::files_hold_one_map;
pub use put::Put;
