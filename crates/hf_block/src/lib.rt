//! Blocks of a hash file: records and free blocks.
#![tactic(auto)]

mod block;
mod reading;
mod walking;
mod writing;

pub use block::{Block, BlockAt, Blocks};
pub use reading::{BlockErr, read_block};
pub use walking::{WHOLE_BLOCKS, WalkErr, next_block, walk};
pub use writing::{links_front, rec_len, write_rec};
