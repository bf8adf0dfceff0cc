//! The update log: its records' grammar, and file 2 of a space as a list of records (`Ulog`), which are added at the end and read in order.
//!
//! In memory are the last timestamp and marks: places at which records begin, one for each half MiB or more, with the timestamp in front of them. An
//! opening reads the file through in pieces of 64 KiB, no more bytes than it has, and goes on in a record as far as its sizes and the file bear out. A round's records are
//! gathered and written at once, or whenever half a MiB of them waits. The first record above a timestamp is looked for from the mark in front of it.
//!
//! The layer above uses that a file which opens is the log of one list of records (`Means`), what each call makes of this list, and what a feed (`Feed`)
//! is given of it.
#![tactic(auto)]

mod ahead;
mod checks;
mod errors;
mod feed;
mod heads;
mod index;
mod log;
mod reading;
mod record;
mod updates;
mod writing;

pub use feed::Feed;
pub use log::Ulog;
pub use reading::{RecTake, look_record, read_record, take_record};
pub use record::{Record, RecordRef, ULOG_FILE};
pub use updates::is_update;
pub use writing::put_record;
