//! Requests and replies as bytes: one spelling each, read exactly.
#![tactic(auto)]

mod copies;
mod items;
mod parsed;
mod reading;
mod shapes;
mod updating;
mod writing;

pub use items::read_item;
pub use reading::{Front, read_request, take};
pub use shapes::{Read, long_of, word_of};
pub use updating::{is_updating, is_updating_call};
pub use writing::write_reply;
