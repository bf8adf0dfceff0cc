//! Trees of records by key, the rules of links, and what it is for a file to stand for a map.
//!
//! The definitions stand in specs/, and the lemmas in proofs/.
#![tactic(auto)]

mod parent;

pub use parent::{Found, Parent};
