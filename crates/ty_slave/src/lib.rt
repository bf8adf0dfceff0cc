//! The link of a replica: what came of its master, looked at one record at a time.
//!
//! Its own id, unread bytes, the last timestamp held and whether the master's id was read are all that a link has. A step takes the id or one record off the front and
//! says what comes of it, by bytes and timestamps alone; what the contents refuse is for the layer above to say, which tells the link what is held.
#![tactic(auto)]

mod link;

pub use link::{Link, Step};
