//! The outside in memory: a volume, a wire that plays a script, a sink and a clock, for tests.
#![tactic(auto)]

mod answered;
mod book;
mod changes;
mod choice;
mod copied;
mod counts;
mod disk;
mod entries;
mod file_bytes;
mod file_set;
mod mem_sink;
mod mem_volume;
mod mem_wire;
mod peers;
mod playing;
mod step_clock;

pub use choice::Choice;
pub use mem_sink::MemSink;
pub use mem_volume::MemVolume;
pub use mem_wire::MemWire;
pub use step_clock::StepClock;
