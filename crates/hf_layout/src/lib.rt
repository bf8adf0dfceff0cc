//! The blocks of a file, and which of them are free.
//!
//! The definitions stand in specs/, and the lemmas on blocks that are parted, joined and written in proofs/.
#![tactic(auto)]

mod laws;
mod writes;

pub use laws::{
    block_stands, free_is_a_block, lent_is_a_block, listed_have_width, places_are_aligned,
    pool_lies_inside, record_has_bytes, record_is_a_block,
};
pub use writes::{
    chains_are_set, front_stays, record_fills_a_block, record_fills_a_front, record_stands_behind,
};
