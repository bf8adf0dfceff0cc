//! The wires and sinks of the system, over sockets of one process and over pipes, and the wire in memory.
#![tactic(auto)]

#[cfg(test)]
mod script;
#[cfg(test)]
mod sockets;
