//! What commands make of a database, and what they print.
#![tactic(auto, using(tc_space::specs::Frames::keeps_refl, tc_space::specs::Frames::keeps_then, tc_space::specs::Frames::follows_then, tc_space::specs::Frames::follows_refl))]

mod asking;
mod changing;
mod drawing;
mod drill;
mod errors;
mod indexing;
mod informing;
mod joining;
mod listing;
mod making;
mod managing;
mod reading;
mod report;
mod run;
mod searching;
mod showing;
mod task;

pub use errors::MgrErr;
pub use joining::joined;
pub use managing::manage;
pub use task::{Task, Wanted};
