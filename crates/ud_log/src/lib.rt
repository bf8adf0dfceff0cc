//! The undo log: its bytes, the rules that they keep, and what they make of files that a stop left.
//!
//! File 1 is the log: the magic word `TKundo01`, the 18 lengths of the data files 0 and 2 to 18, then entries. An entry is a
//! file (4 bytes), a place (8), a size (4), so many old bytes, and the size again (4), all numbers with the least byte first.
//!
//! An array of 18 has one item for each data file: that of file 0, then those of the files 2 to 18.
#![tactic(auto)]

mod laws;
mod reading;
mod spell;
mod tests;

pub use laws::grammar_is_exact;
pub use reading::{EntryFront, read_again, read_head, read_lens};
pub use spell::{DATA_FILES, HEADER, file_at, frame, header_of, place};
pub use tests::{are_short, begins_well, is_formed};
