//! Records found, hung and taken out in the trees of a hash file's buckets.
#![tactic(auto, using(tc_space::specs::Frames::only_reads_refl, tc_space::specs::Frames::only_reads_then, tc_space::specs::Frames::keeps_then))]

mod comparing;
mod counting;
mod finding;
mod hanging;
mod heads;
mod links;

pub use comparing::compare_bytes;
pub use finding::{Place, Search, find};
pub use hanging::{hang, unhang};
pub use heads::{RecHead, head_at, head_in, place_named, read_head, rec_of};
pub use hf_tree::Parent;
