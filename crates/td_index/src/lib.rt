//! Indexes of columns over any list of pairs: the key of a pair is a part of a row's column, a zero byte and the primary key. What the list has is told as what is owed of the rows, which give
//! one part or several.
#![tactic(auto, using(tc_space::specs::Frames::keeps_refl, tc_space::specs::Frames::keeps_then, tc_space::specs::Frames::reads_refl, tc_space::specs::Frames::reads_then, tc_space::specs::Frames::others_refl, tc_space::specs::Frames::others_then, tc_space::specs::Stores::ready_writes, tc_space::specs::Stores::ready_takes, tc_space::specs::Stores::ready_reads))]

mod check;
mod entries;
mod index;
mod ranges;

pub use check::{Picks, check_entries};
pub use entries::entry_of;
pub use index::{Index, out_entries, out_entry, put_entries, put_entry};
pub use ranges::keys_in;
