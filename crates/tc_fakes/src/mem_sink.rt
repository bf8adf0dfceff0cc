//! A sink in memory.
ghost use Rattle.std.specs.Prelude.{◌≡◌, ◌++◌, [], Some, OnOk, OnErr};
ghost use Rattle.tc_fakes.specs.Counted.{FailsRightly, IsFresh};

use crate::counts::Counts;
use std::alloc::Global;
use tc_base::Fault;
use tc_io::Sink;

/// A sink in memory.
#[derive(Drop)]
pub struct MemSink {
    bytes: Vec<u8>,
    counts: Counts,
}

impl MemSink {
    /// A sink that has taken nothing, of whose puts none is to fail.
    pub fn new(alloc: Global) -> MemSink
        ensures bytes { result.bytes.items ≡ [] }
        ensures counts { IsFresh result.counts }
    {
        MemSink {
            bytes: Vec::new(alloc),
            counts: Counts::new(alloc),
        }
    }

    /// Names the puts, counted from 1, that answer a fault and take nothing, in place of those named before.
    pub fn fail_at(&mut self, calls: Vec<u64>)
        ensures { self.new ≡ record self.old { counts = record self.old.counts { fails = calls } } }
    {
        self.counts.fails = calls;
    }

    /// All that it has taken.
    pub fn bytes(&self) -> &[u8]
        ensures { result.now ≡ self.now.bytes.items }
    {
        self.bytes.as_slice()
    }

    /// How many calls found no memory.
    pub fn starved(&self) -> u64
        ensures { result ≡ self.now.counts.starved }
    {
        self.counts.starved
    }
}

impl Sink for MemSink {
    ghost faults = { λ s. s.counts.faults };

    ghost taken = { λ s. Some s.bytes.items };

    fn put(&mut self, bytes: &[u8]) -> Result<(), Fault>
        ensures ok { OnOk result (self.new.bytes.items ≡ self.old.bytes.items ++ bytes.now) }
        ensures err { OnErr result (self.new.bytes.items ≡ self.old.bytes.items) }
        ensures rightly { FailsRightly self.old.counts self.new.counts result }
    {
        self.counts.refuse()?;
        match self.bytes.extend_from_slice(bytes) {
            Ok(()) => Ok(()),
            Err(_) => Err(self.counts.starve()),
        }
    }
}
