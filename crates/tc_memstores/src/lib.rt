//! A map and a list of pairs in memory, over a space whose files they leave alone, and a space of one file in memory. Simple and slow: a call
//! of the list costs the size of the whole.
#![tactic(auto, using(tc_space::specs::Frames::keeps_refl, tc_space::specs::Frames::reads_refl, tc_space::specs::Frames::others_refl))]

mod cells;
mod lists;
mod multi;
mod one_file;
mod records;
mod rows;
mod values;

pub use multi::MemMulti;
pub use one_file::OneFile;
pub use records::MemRecords;
