//! The real sinks.
ghost use Rattle.std.specs.Prelude.{None};

use std::io::Write;
use tc_base::Fault;
use tc_io::Sink;

/// A standard stream that is written to.
#[derive(Drop)]
pub struct StdSink<O> {
    writer: O,
    faults: u64,
}

impl<O: Write> StdSink<O> {
    pub fn new(writer: O) -> StdSink<O> {
        StdSink { writer, faults: 0 }
    }
}

impl<O: Write> Sink for StdSink<O> {
    ghost faults = { λ s. s.faults };

    ghost taken = { λ _. None };

    fn put(&mut self, bytes: &[u8]) -> Result<(), Fault> {
        match self.writer.write_all(bytes) {
            Ok(()) => Ok(()),
            Err(_) => {
                self.faults = self.faults.saturating_add(1);
                Err(Fault)
            }
        }
    }
}
