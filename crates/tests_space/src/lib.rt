//! Clients of any space, of any map and of any list of pairs, proved from the traits alone.
#![tactic(auto, using(tc_space::specs::Stores::ready_reads, tc_space::specs::Stores::ready_writes, tc_space::specs::Stores::ready_puts, tc_space::specs::Stores::ready_takes, tc_space::specs::Frames::keeps_then, tc_space::specs::Frames::keeps_refl))]

mod lists;
mod maps;
mod spaces;

pub use lists::add_and_take;
pub use maps::put_and_get;
pub use spaces::{is_empty, store};
