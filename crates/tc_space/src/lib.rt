//! Files with commits, maps and lists of pairs over them, as traits, and their errors.
#![tactic(auto)]

mod errors;
mod multi;
mod no_space;
mod records;
mod space;

pub use errors::{OpenErr, PutErr, RecErr, SpaceErr};
pub use multi::Multi;
pub use no_space::NoSpace;
pub use records::Records;
pub use space::Space;
