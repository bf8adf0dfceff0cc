//! The heads of database files: 256 bytes at their front.
#![tactic(auto)]

mod errors;
mod fixed;
mod head;
mod layout;

pub use errors::HeadErr;
pub use fixed::FixedHead;
pub use head::Head;
