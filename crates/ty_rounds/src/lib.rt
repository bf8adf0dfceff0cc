//! One turn: a dial where it is due, an event of the wire, a round of pieces, a commit, copies, then sends and closings.
#![tactic(auto, using(tc_space::specs::Frames::keeps_then, tc_space::specs::Frames::keeps_refl, tc_space::specs::Frames::follows_then, tc_space::specs::Frames::follows_refl))]

mod batch;
mod closing;
mod committing;
mod copying;
mod dialling;
mod joining;
mod linking;
mod listening;
mod logging;
mod outcome;
mod peer;
mod rounds;
mod sends;
mod server;
mod span;
mod turning;

pub use committing::keep;
pub use copying::make_copies;
pub use logging::{Logged, Master};
pub use outcome::{Outcome, TurnErr};
pub use peer::{Caller, Peer, Role};
pub use server::Server;
pub use turning::turn;
