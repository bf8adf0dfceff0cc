//! One connection: the bytes that came of it, and those that wait to be sent.
#![tactic(auto, using(tc_space::specs::Frames::keeps_then, tc_space::specs::Frames::keeps_refl))]

mod large;
mod serving;
mod session;
mod taking;
mod texts;
mod unread;

pub use serving::{Feed, Served};
pub use session::Session;
