//! What a transcript makes of the database and of its connections: definitions and their laws.
#![tactic(auto)]

mod laws;

pub use laws::{
    a_replica_follows, all_was_sent, as_before, feeds_are_owed_all, frames_are_counted,
    links_are_introduced, nothing_is_noted, placed_pieces_came, rounds_are_right, turns_suffice,
    turns_suffice_a_replica,
};
