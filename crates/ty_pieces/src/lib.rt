//! What a piece of a connection's bytes, a request or a text command, makes of the database, and what is replied: definitions and their laws.
#![tactic(auto)]

mod laws;

pub use laws::{none_updates_a_replica, one_does_what_it_says, replies_are_short};
