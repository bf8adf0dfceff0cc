//! One database behind the requests of its clients.
#![tactic(auto)]

mod base;
mod errors;
mod opens;
mod storage;

pub use base::Base;
pub use errors::AnyErr;
pub use opens::Opens;
pub use storage::Storage;
