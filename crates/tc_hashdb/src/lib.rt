//! The engine of hash databases.
#![tactic(auto)]

mod counting;
mod engine;
mod holding;
mod informing;
mod listing;
mod many;
mod opening;
mod reading;
mod shape;
mod storing;

pub use holding::HashEngine;
pub use listing::{add_items, add_texts, beginning, key_list};
pub use many::last_of_each;
pub use shape::HashShape;
