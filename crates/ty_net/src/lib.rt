//! The real wires and sinks. They tell nothing of content.
#![tactic(auto)]

mod ahead;
mod faults;
mod leaving;
mod line;
mod net;
mod pipe;
mod roster;
mod sinks;
mod socket;
mod sockets;
mod stretch;

pub use net::NetWire;
pub use pipe::PipeWire;
pub use sinks::StdSink;
pub use socket::SocketWire;
