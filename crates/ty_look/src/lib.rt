//! The request at the front of bytes that come in pieces: nothing is looked at twice.
#![tactic(auto)]

mod ends;
mod looking;

pub use looking::{Seen, look};
