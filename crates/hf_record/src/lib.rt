//! The records of a hash file, on its head, its free blocks and its bytes: a key searched, a record hung, written over in its block, taken out.
//!
//! Each call is made of the steps of a bucket's tree (`hf_chain`) and of the free blocks (`hf_pool`). The layer above uses what it makes of whatever map is
//! held, which bytes it may change, and where the record of a key then stands.
#![tactic(auto, using(tc_space::specs::Frames::keeps_refl, tc_space::specs::Frames::keeps_then, tc_space::specs::Frames::only_reads_refl, tc_space::specs::Frames::only_reads_then, tc_space::specs::Frames::only_writes_refl, tc_space::specs::Frames::only_writes_then))]

mod adding;
mod asking;
mod body;
mod giving;
mod putting;
mod searching;
mod spelling;
mod taking;

pub use body::Body;
pub use hf_chain::{Parent, Place, Search};
pub use searching::block_of;
