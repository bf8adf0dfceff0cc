//! The outside as four traits: a volume of files, a wire of connections, a sink and a clock.
#![tactic(auto)]

mod act;
mod clock;
mod numbers;
mod sink;
mod volume;
mod wire;

pub use act::Act;
pub use clock::Clock;
pub use numbers::Numbers;
pub use sink::Sink;
pub use volume::Volume;
pub use wire::{At, Dialled, Entry, Ev, Sent, Wire};
