//! How far a drill has come.
ghost use Rattle.std.specs.Prelude.{◌≡◌, ◌≤◌, ◌<◌, ◌+◌, if◌then◌else◌};

use std::alloc::Global;
use tc_base::Blob;

/// The number drawn last, how many requests were made, and how many of them succeeded.
#[derive(Drop)]
pub struct Run {
    pub alloc: Global,
    pub drawn: u64,
    pub made: u32,
    pub accepted: u32,
    // What the last request was answered.
    pub reply: Blob,
    ghost counted: { accepted ≤ made },
}

impl Run {
    /// No request is made yet.
    pub fn new(alloc: Global, seed: u64) -> Run
        ensures drawn { result.drawn ≡ seed }
        ensures made { result.made ≡ 0 }
        ensures accepted { result.accepted ≡ 0 }
    {
        Run {
            alloc,
            drawn: seed,
            made: 0,
            accepted: 0,
            reply: Blob::new(alloc),
        }
    }

    /// Notes a request that a number determined.
    pub fn note(&mut self, drawn: u64, ok: bool)
        requires room { self.old.made < u32.MAX }
        ensures drawn { self.new.drawn ≡ drawn }
        ensures made { self.new.made ≡ self.old.made + 1 }
        ensures accepted { self.new.accepted ≡ (if ok then self.old.accepted + 1 else self.old.accepted) }
    {
        self.drawn = drawn;
        self.made += 1;
        if ok {
            self.accepted += 1;
        }
    }
}
